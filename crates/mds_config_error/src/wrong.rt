//! What is wrong with a text that is no configuration.
use std::fmt;

/// A member that has to differ between operators.
#[derive(Clone, Copy, Debug, PartialEq, Eq)]
pub enum Key {
    /// The identifier.
    Id,
    /// The access token.
    Token,
}

impl fmt::Display for Key {
    ghost use Rattle.std.specs.Prelude.{Some};
    ghost use Rattle.mds_config_error.specs.Wording.{key_wording};

    ghost output = { λ key. Some (key_wording key) };

    fn fmt<W: fmt::Write>(&self, f: &mut fmt::Formatter<W>) -> fmt::Result {
        f.write_str(match self {
            Key::Id => "id",
            Key::Token => "token",
        })
    }
}

/// What is wrong with an operator of a configuration.
#[derive(Clone, Copy, Debug, PartialEq, Eq)]
pub enum OperatorFlaw {
    /// It is no object.
    Entry,
    /// Its identifier is missing, or is no UUID.
    Id,
    /// Its limit is missing, or is no whole number.
    Limit,
    /// Its limit is below 1 or above 200,000.
    LimitRange,
    /// Its access token is missing, or is none.
    Token,
}

impl fmt::Display for OperatorFlaw {
    ghost use Rattle.std.specs.Prelude.{Some};
    ghost use Rattle.mds_config_error.specs.Wording.{flaw_wording};

    ghost output = { λ flaw. Some (flaw_wording flaw) };

    fn fmt<W: fmt::Write>(&self, f: &mut fmt::Formatter<W>) -> fmt::Result {
        f.write_str(match self {
            OperatorFlaw::Entry => ": not an object",
            OperatorFlaw::Id => ".id: not a UUID",
            OperatorFlaw::Limit => ".limit: not a whole number",
            OperatorFlaw::LimitRange => ".limit: out of range (1 to 200000)",
            OperatorFlaw::Token => ".token: not an access token (1 to 64 of A-Z a-z 0-9 - _)",
        })
    }
}

/// What is wrong with a text that is no configuration. Places of operators are counted from 0.
#[derive(Clone, Copy, Debug, PartialEq, Eq)]
pub enum Wrong {
    /// It is no JSON (RFC 8259).
    Json,
    /// It is JSON, but no object.
    Document,
    /// The author's access token is missing, or is none.
    Author,
    /// The operators are missing, or are no list.
    Operators,
    /// There are more than `mds_request::MOST_OPERATORS`.
    TooManyOperators,
    /// The operator at this place has a flaw, and those before it have none.
    Operator(usize, OperatorFlaw),
    /// The time zone is missing, or is none.
    Zone,
    /// The operators at these two places have the same identifier or access token.
    Alike(Key, usize, usize),
    /// The operator at this place has the author's access token.
    AuthorsToken(usize),
}

/// The operator at this place, for display.
#[derive(Clone, Copy)]
struct OperatorPlace(usize);

impl fmt::Display for OperatorPlace {
    ghost use Rattle.std.specs.Prelude.{Some};
    ghost use Rattle.mds_config_error.specs.Wording.{operator_wording};

    ghost output = { λ place. Some (operator_wording place.0) };

    fn fmt<W: fmt::Write>(&self, f: &mut fmt::Formatter<W>) -> fmt::Result {
        write!(f, "operators[{}]", self.0)
    }
}

/// Two operators, for display.
#[derive(Clone, Copy)]
struct PlacePair(OperatorPlace, OperatorPlace);

impl fmt::Display for PlacePair {
    ghost use Rattle.std.specs.Prelude.{Some};
    ghost use Rattle.mds_config_error.specs.Wording.{pair_wording};

    ghost output = { λ pair. Some (pair_wording pair.0.0 pair.1.0) };

    fn fmt<W: fmt::Write>(&self, f: &mut fmt::Formatter<W>) -> fmt::Result {
        write!(f, "{} and {}", self.0, self.1)
    }
}

impl fmt::Display for Wrong {
    ghost use Rattle.std.specs.Prelude.{Some};
    ghost use Rattle.mds_config_error.specs.Wording.{wrong_wording};

    ghost output = { λ wrong. Some (wrong_wording wrong) };

    fn fmt<W: fmt::Write>(&self, f: &mut fmt::Formatter<W>) -> fmt::Result {
        match self {
            Wrong::Json => f.write_str("not JSON"),
            Wrong::Document => f.write_str("not a JSON object"),
            Wrong::Author => {
                f.write_str("author: not an access token (1 to 64 of A-Z a-z 0-9 - _)")
            }
            Wrong::Operators => f.write_str("operators: not a list"),
            Wrong::TooManyOperators => f.write_str("operators: more than 64"),
            Wrong::Operator(place, flaw) => {
                let operator = OperatorPlace(*place);
                write!(f, "{operator}{flaw}")
            }
            Wrong::Zone => f.write_str("zone: not a time zone (Z, +hh:mm, -hh:mm or a POSIX rule)"),
            Wrong::Alike(key, first, second) => {
                let pair = PlacePair(OperatorPlace(*first), OperatorPlace(*second));
                write!(f, "{pair}: the same {key}")
            }
            Wrong::AuthorsToken(place) => {
                let operator = OperatorPlace(*place);
                write!(f, "author and {operator}: the same token")
            }
        }
    }
}
