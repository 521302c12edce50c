// A refusal that hands back what was given.

// What was given, and why it was refused.
#[derive(PartialEq, Eq, Debug, Drop)]
pub struct Refused<G, F> {
    pub given: G,
    pub fault: F,
}
