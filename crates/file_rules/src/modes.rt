// What an open may do and tolerates, and how a position is meant: each by its code.
ghost use Rattle.std.specs.Prelude.{◌≡◌, ◌&&◌, ◌||◌};
ghost use Rattle.file_rules.specs.Modes.{access_of, exclusion_of, positioning_of, DecodesBy, is_exclusive, is_protected, may_write, excluding, ExclusionSymmetric};

#[derive(Clone, Copy, PartialEq, Eq, Debug)]
pub enum AccessMode {
    ReadWrite,
    ReadOnly,
    WriteOnly,
}

#[derive(Clone, Copy, PartialEq, Eq, Debug)]
pub enum ExclusionMode {
    Shared,
    Exclusive,
    Protected,
}

#[derive(Clone, Copy, PartialEq, Eq, Debug)]
pub enum PositioningMode {
    Approximate,
    Generic,
    Exact,
}

// A code that names no mode. Each mode has codes of its own, so each reads them itself: one function for all would have to
// be handed a table of codes and modes.
#[derive(Clone, Copy, PartialEq, Eq, Debug)]
pub struct UnknownCode(pub usize);

impl TryFrom<usize> for AccessMode {
    type Error = UnknownCode;

    ghost try_from_gives = { DecodesBy access_of };

    fn try_from(code: usize) -> Result<Self, UnknownCode> {
        match code {
            0 => Ok(AccessMode::ReadWrite),
            1 => Ok(AccessMode::ReadOnly),
            2 => Ok(AccessMode::WriteOnly),
            _ => Err(UnknownCode(code)),
        }
    }
}

// There is no code 2.
impl TryFrom<usize> for ExclusionMode {
    type Error = UnknownCode;

    ghost try_from_gives = { DecodesBy exclusion_of };

    fn try_from(code: usize) -> Result<Self, UnknownCode> {
        match code {
            0 => Ok(ExclusionMode::Shared),
            1 => Ok(ExclusionMode::Exclusive),
            3 => Ok(ExclusionMode::Protected),
            _ => Err(UnknownCode(code)),
        }
    }
}

impl TryFrom<usize> for PositioningMode {
    type Error = UnknownCode;

    ghost try_from_gives = { DecodesBy positioning_of };

    fn try_from(code: usize) -> Result<Self, UnknownCode> {
        match code {
            0 => Ok(PositioningMode::Approximate),
            1 => Ok(PositioningMode::Generic),
            2 => Ok(PositioningMode::Exact),
            _ => Err(UnknownCode(code)),
        }
    }
}

// The access and the exclusion that an open asks for.
#[derive(Clone, Copy, PartialEq, Eq, Debug)]
pub struct OpenModes {
    pub access: AccessMode,
    pub exclusion: ExclusionMode,
}

impl OpenModes {
    // Whether two opens exclude each other. It makes no difference which of them came first.
    pub fn excludes(self, other: OpenModes) -> bool
        ensures value { result ≡ excluding self.access self.exclusion other.access other.exclusion }
        ensures symmetric { ExclusionSymmetric }
    {
        self.shuts_out(other) || other.shuts_out(self)
    }

    // This open is exclusive, or it is protected and the other may write.
    fn shuts_out(self, other: OpenModes) -> bool
        ensures { result ≡ (is_exclusive self.exclusion || (is_protected self.exclusion && may_write other.access)) }
    {
        match self.exclusion {
            ExclusionMode::Shared => false,
            ExclusionMode::Exclusive => true,
            ExclusionMode::Protected => other.access != AccessMode::ReadOnly,
        }
    }
}
