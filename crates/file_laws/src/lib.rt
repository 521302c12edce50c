// Laws of the plain file. A file that answers as the plain file does has them too.
//
// Each function's contract is one law, by a statement of specs/; it has nothing to compute.
#![tactic(auto)]

ghost use Rattle.file_rules.specs.Descriptions.{Description};
ghost use Rattle.file_laws.specs.Builds.{BuildLaw};
ghost use Rattle.file_laws.specs.Examples.{Examples};
ghost use Rattle.file_laws.specs.Laws.{RunsHold, LocksHold, DeliveriesHold, ServedSound};
ghost use Rattle.file_laws.specs.OwnChecks.{CallsMeetOwnChecks};
ghost use Rattle.file_laws.specs.Readings.{Readings};
ghost use Rattle.file_laws.specs.Sound.{StaysSound};

// In a run the READs of its number deliver strictly ascending path strings, each of a record present at that moment
// and in the subset that the KEYPOSITION named, with the bytes asked for; and where the run ends with the answer 1,
// exactly once every record that all the while kept one path string in that subset.
pub fn run_law()
    ensures { RunsHold }
{}

// From a LOCKREC answered 0 until its release no call through another number delivers, places, replaces or removes a
// record under that key.
pub fn lock_law()
    ensures { LocksHold }
{}

// What an accepted READ or READUPDATE hands over is the record under the key that it leaves as the current key.
pub fn delivery_law()
    ensures { DeliveriesHold }
{}

// The fresh key build has the rows of the records present and no others, and changes by a record's own rows.
pub fn key_build_law()
    ensures { (d : Description) → BuildLaw d }
{}

// A file that was put in service is sound, and every call leaves it so.
pub fn soundness_law()
    ensures served { ServedSound }
    ensures stays { StaysSound }
{}

// Each call meets its own checks, in checking order, and no others.
pub fn checks_of_calls()
    ensures { CallsMeetOwnChecks }
{}

// What READs deliver of the small file.
pub fn small_file_readings()
    ensures { Readings }
{}

// What the plain file answers in worked examples.
pub fn worked_examples()
    ensures { Examples }
{}
