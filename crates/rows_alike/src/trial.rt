// The calls, each made to both files.
use crate::draws::{draw_mark, draw_row};
use crate::tally::Tally;
use dice::Dice;
use row_listing::list_rows;
use storage::{KeyRowFile, RowFault, is_present};

const STEPS: u32 = 1_000;

const SEED: u64 = 1981;

// What a buffer holds before a file reads into it.
const DOTS: [u8; 5] = [b'.'; 5];

// Two files, the dice that draw the calls, and the tally of the answers.
#[derive(Drop)]
pub(crate) struct Trial<T, C> {
    table: T,
    chain: C,
    dice: Dice,
    tally: Tally,
}

impl<T: KeyRowFile, C: KeyRowFile> Trial<T, C> {
    pub(crate) fn new(table: T, chain: C) -> Trial<T, C> {
        Trial {
            table,
            chain,
            dice: Dice::new(SEED),
            tally: Tally::default(),
        }
    }

    pub(crate) fn run(&mut self) {
        for _ in 0..STEPS {
            self.step();
        }
    }

    // A draw chooses the call. Its four kinds take and answer different things, so closures would be no plainer.
    fn step(&mut self) {
        let row = draw_row(&mut self.dice);
        let row = row.as_slice();
        match self.dice.throw(10) {
            0..=3 => {
                let answers = [self.table.add(row), self.chain.add(row)];
                self.note_change(answers);
            }
            4..=6 => {
                let answers = [self.table.drop_row(row), self.chain.drop_row(row)];
                self.note_change(answers);
            }
            7..=8 => self.find(row),
            _ => self.fetch(row),
        }
    }

    fn note_change(&mut self, [by_table, by_chain]: [Result<(), RowFault>; 2]) {
        let (table, chain) = (&self.table, &self.chain);
        let alike = by_table == by_chain
            && table.count() == chain.count()
            && table.total() == chain.total()
            && table.limit() == chain.limit();
        self.tally.note_like(alike);
        self.tally.note_change(by_table);
    }

    fn find(&mut self, from: &[u8]) {
        let mark = draw_mark(&mut self.dice);
        let (mut left, mut right) = (DOTS, DOTS);
        let by_table = self.table.find(from, mark, &mut left);
        let by_chain = self.chain.find(from, mark, &mut right);
        self.tally.note_like(by_table == by_chain && left == right);
        // the pair that the interface wants
        let (there, _) = by_table;
        self.tally.note_reading(there);
    }

    fn fetch(&mut self, row: &[u8]) {
        let (mut left, mut right) = (DOTS, DOTS);
        let by_table = self.table.fetch(row, &mut left);
        let by_chain = self.chain.fetch(row, &mut right);
        let there = is_present(&self.table, row);
        let also = is_present(&self.chain, row);
        self.tally
            .note_like(by_table == by_chain && left == right && there == also);
        self.tally.note_reading(there);
    }

    // It ends in words of its own, and so not by one function with settlement's batch.
    pub(crate) fn print(&self, rt: &(impl Print + AllocGlobal)) -> anyhow::Result<()> {
        println!(rt; "{}", self.tally)?;
        let heap = rt.alloc();
        let by_table = list_rows(heap, &self.table)?;
        let by_chain = list_rows(heap, &self.chain)?;
        println!(rt;
            "rows at the end: {} and {}",
            by_table.len(),
            by_chain.len()
        )?;
        if by_table == by_chain {
            println!(rt; "the same rows in the same order")?;
        } else {
            println!(rt; "THE FILES DIFFER")?;
        }
        Ok(())
    }
}
