// Kinds of clauses.

// Whether a clause is the first of its set with three literals, or with more; else it is none that an AND, an XOR or an ITE is looked for in.
#[derive(Clone, Copy, PartialEq, Eq)]
pub enum Kind {
    Other,
    Long,
    Three,
}
