// The bounds that a description keeps.
ghost use Rattle.std.specs.Prelude.{◌≡◌, not};
ghost use Rattle.std.specs.List.{list_all};
ghost use Rattle.byte_strings.specs.Bytes.{same};
ghost use Rattle.storage.specs.Checks.{first, settled};
ghost use Rattle.file_rules.specs.Bounds.{field_fits, key_fits, alternate_fits, specifiers_differ, table_fits, within_bounds, bound_checks};
ghost use Rattle.file_rules.specs.Descriptions.{described, shape_of};

use crate::description::{AlternateKey, FileDescription, KeyField, Organization};
use crate::fault::CallFault;
use storage::{LONGEST_KEY, MOST_ROWS, PrimaryShape};

pub const HIGHEST_OFFSET: usize = 254;

pub const MOST_ALTERNATE_KEYS: usize = 4;

impl FileDescription<'_> {
    // Refuses a description that breaks a bound.
    pub fn check(&self) -> Result<(), CallFault>
        ensures { result ≡ settled (first (bound_checks (described self.now))) }
    {
        if !self.is_within_bounds() {
            return Err(CallFault::IllegalCount);
        }
        Ok(())
    }

    fn is_within_bounds(&self) -> bool
        ensures { result ≡ within_bounds (described self.now) }
    {
        self.shape().check().is_ok()
            && self.key_fits()
            && self.table_fits()
            && (1..=MOST_ROWS).contains(&self.row_limit)
    }

    // What the primary file of such a file states.
    fn shape(&self) -> PrimaryShape
        ensures { result ≡ shape_of (described self.now) }
    {
        PrimaryShape {
            kind: self.organization.kind(),
            key_len: self.organization.key_len(),
            max_record_len: self.max_record_len,
            record_limit: self.record_limit,
            byte_limit: self.byte_limit,
        }
    }

    fn key_fits(&self) -> bool
        ensures { result ≡ key_fits self.now.max_record_len self.now.organization }
    {
        match self.organization {
            Organization::Relative | Organization::EntrySequenced => true,
            Organization::KeySequenced(field) => self.field_fits(field),
        }
    }

    // At most four keys, each within its bounds, and no two with one specifier.
    fn table_fits(&self) -> bool
        ensures { result ≡ table_fits self.now.max_record_len self.now.alternate_keys.now }
    {
        self.alternate_keys.len() <= MOST_ALTERNATE_KEYS
            && self.alternates_fit()
            && specifiers_differ(self.alternate_keys)
    }

    fn alternates_fit(&self) -> bool
        ensures { result ≡ list_all (alternate_fits self.now.max_record_len) self.now.alternate_keys.now }
    {
        self.alternate_keys
            .iter()
            .all(|key| self.alternate_fits(key))
    }

    #[tactic(auto, unfolding(byte_strings::specs::Bytes::same))]
    fn alternate_fits(&self, key: &AlternateKey) -> bool
        ensures { result ≡ alternate_fits self.now.max_record_len key.now }
    {
        key.specifier != [0, 0] && key.field.offset <= HIGHEST_OFFSET && self.field_fits(key.field)
    }

    // 1 to 32 bytes that end within the longest record.
    fn field_fits(&self, field: KeyField) -> bool
        ensures { result ≡ field_fits self.now.max_record_len field }
    {
        (1..=LONGEST_KEY).contains(&field.len)
            && field.len <= self.max_record_len
            && field.offset <= self.max_record_len - field.len
    }
}

impl AlternateKey {
    // None of the others has the specifier.
    #[tactic(auto, unfolding(byte_strings::specs::Bytes::same))]
    fn differs_from_all(self, others: &[AlternateKey]) -> bool
        ensures { result ≡ list_all (λ k. not (same self.specifier k.specifier)) others.now }
    {
        others.iter().all(|other| other.specifier != self.specifier)
    }
}

fn specifiers_differ(keys: &[AlternateKey]) -> bool
    ensures { result ≡ specifiers_differ keys.now }
{
    match keys {
        [] => true,
        [key, others @ ..] => key.differs_from_all(others) && specifiers_differ(others),
    }
}
