// How often each answer came.
use std::fmt;
use storage::RowFault;

#[derive(Clone, Copy, Default)]
pub(crate) struct Tally {
    accepted: u32,
    illegal: u32,
    present: u32,
    full: u32,
    absent: u32,
    read: Split,
    compared: Split,
}

// How often the answer was yes, and how often no.
#[derive(Clone, Copy, Default)]
struct Split {
    yes: u32,
    no: u32,
}

impl Tally {
    pub(crate) fn note_change(&mut self, answer: Result<(), RowFault>) {
        count(match answer {
            Ok(()) => &mut self.accepted,
            Err(RowFault::IllegalCount) => &mut self.illegal,
            Err(RowFault::AlreadyExists) => &mut self.present,
            Err(RowFault::FileFull) => &mut self.full,
            Err(RowFault::NotFound) => &mut self.absent,
        });
    }

    pub(crate) fn note_reading(&mut self, there: bool) {
        self.read.note(there);
    }

    pub(crate) fn note_like(&mut self, alike: bool) {
        self.compared.note(alike);
    }
}

impl Split {
    fn note(&mut self, yes: bool) {
        count(if yes { &mut self.yes } else { &mut self.no });
    }
}

fn count(times: &mut u32) {
    *times = times.saturating_add(1);
}

impl fmt::Display for Tally {
    fn fmt<W: fmt::Write>(&self, f: &mut fmt::Formatter<W>) -> fmt::Result {
        writeln!(f, "adds and drops accepted: {}", self.accepted)?;
        writeln!(
            f,
            "refused: illegal length {}, present {}, full {}, absent {}",
            self.illegal, self.present, self.full, self.absent
        )?;
        writeln!(
            f,
            "finds and fetches: there {}, none {}",
            self.read.yes, self.read.no
        )?;
        write!(
            f,
            "answered alike: {}, unlike: {}",
            self.compared.yes, self.compared.no
        )
    }
}
