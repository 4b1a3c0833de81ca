//! A violation, its order, and the least one that was met so far.
ghost use Rattle.std.specs.Prelude.{◌≡◌};
ghost use Rattle.dpi_rules.specs.Order.{before, lesser, joined};

/// A rule that is broken at a token.
#[derive(Clone, Copy, Debug, PartialEq, Eq)]
pub struct Violation {
    /// The number of the file, from 0.
    pub file: u32,
    /// The number of the token in its file, from 0.
    pub token: u32,
    /// The number of the rule.
    pub rule: u8,
}

impl Violation {
    /// Whether this one stands before the other: in an earlier file, or earlier in the same file,
    /// or at the same token with a rule of a lesser number.
    pub fn is_before(self, other: Violation) -> bool
        ensures { result ≡ before self other }
    {
        if self.file != other.file {
            self.file < other.file
        } else if self.token != other.token {
            self.token < other.token
        } else {
            self.rule < other.rule
        }
    }
}

/// Keeps the lesser of what was found so far and this violation.
pub fn note(found: &mut Option<Violation>, violation: Violation)
    ensures { found.new ≡ lesser found.old violation }
{
    match *found {
        None => *found = Some(violation),
        Some(least) => {
            if violation.is_before(least) {
                *found = Some(violation);
            }
        }
    }
}

/// Keeps the lesser of what was found so far and what was found elsewhere, if anything was.
pub fn join(found: &mut Option<Violation>, other: Option<Violation>)
    ensures { found.new ≡ joined found.old other }
{
    if let Some(violation) = other {
        note(found, violation);
    }
}
