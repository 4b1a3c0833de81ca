//! The pair of files that the program runs: one import that adds.

ghost use Rattle.std.specs.Prelude.{◌≡◌, ◌<◌, option_map, map, length, All, IfOk, IfSome, IsSome};
ghost use Rattle.dpi_lex.specs.Words.{words_of};
ghost use Rattle.dpirun.specs.Form.{bytes_at};
ghost use Rattle.dpirun.specs.Pair.{call_of, call_from, call_shown, body_of, body_from, parameter_of, argument, sum_of};
ghost use Rattle.dpirun.specs.Answer.{held_by_int, sum_of_body, sum_of_tokens};

use crate::form::holes;
use crate::literal::value;
use crate::outcome::Sum;
use dpi_lex::Tokens;
use dpi_ports::NoMemory;
use std::alloc::Global;

/// The words of the SystemVerilog file.
pub const SV_FORM: [&str; 32] = [
    "module",
    "M",
    ";",
    "import",
    "\"DPI-C\"",
    "function",
    "int",
    "F",
    "(",
    "input",
    "int",
    "A",
    ",",
    "input",
    "int",
    "B",
    ")",
    ";",
    "initial",
    "$display",
    "(",
    "\"%0d\"",
    ",",
    "F",
    "(",
    "N",
    ",",
    "N",
    ")",
    ")",
    ";",
    "endmodule",
];

/// The words of the C file.
pub const C_FORM: [&str; 16] = [
    "int", "F", "(", "int", "P", ",", "int", "Q", ")", "{", "return", "R", "+", "R", ";", "}",
];

/// The number of the `+` among the words of the C file, from 0.
pub const PLUS: u32 = 12;

/// The call in the SystemVerilog file.
#[derive(Debug, Drop)]
pub struct Call {
    /// The name of the called function.
    pub function: Vec<u8>,
    /// The first actual's digits as a number.
    pub left: u32,
    /// The second actual's digits as a number.
    pub right: u32,
}

/// A parameter of the C function.
#[derive(Clone, Copy, Debug, PartialEq, Eq)]
pub enum Parameter {
    /// The first one.
    First,
    /// The second one.
    Second,
}

/// The operands of the sum that the C function returns.
#[derive(Clone, Copy, Debug, PartialEq, Eq)]
pub struct Body {
    /// What stands before the `+`.
    pub left: Parameter,
    /// What stands after it.
    pub right: Parameter,
}

impl Call {
    // the call of these names and numbers
    fn from(alloc: Global, tokens: &Tokens, blanks: &[u32]) -> Result<Option<Call>, NoMemory>
        requires { All (λ i. i < length tokens.now.tokens) blanks.now }
        ensures { IfOk result (λ found. option_map call_shown found
            ≡ call_from (map (bytes_at (words_of tokens.now)) blanks.now)) }
    {
        let [_, function, first, second, called, left, right] = blanks else {
            return Ok(None);
        };
        let same = tokens.bytes(*function) == tokens.bytes(*called);
        let distinct = tokens.bytes(*first) != tokens.bytes(*second);
        if !(same & distinct) {
            return Ok(None);
        }
        let Some(left) = value(tokens.bytes(*left)) else {
            return Ok(None);
        };
        let Some(right) = value(tokens.bytes(*right)) else {
            return Ok(None);
        };
        let function = Vec::from_slice(alloc, tokens.bytes(*function))?;
        Ok(Some(Call {
            function,
            left,
            right,
        }))
    }

    /// The call of a SystemVerilog file, or None where the file has another form.
    pub fn of(alloc: Global, tokens: &Tokens) -> Result<Option<Call>, NoMemory>
        ensures { IfOk result (λ found. option_map call_shown found ≡ call_of (words_of tokens.now)) }
    {
        match holes(alloc, &SV_FORM, tokens)? {
            Some(blanks) => Call::from(alloc, tokens, &blanks),
            None => Ok(None),
        }
    }
}

impl Body {
    // the body of these names, where the function has that name
    fn from(tokens: &Tokens, blanks: &[u32], function: &[u8]) -> Option<Body>
        requires { All (λ i. i < length tokens.now.tokens) blanks.now }
        ensures { result ≡ body_from function.now (map (bytes_at (words_of tokens.now)) blanks.now) }
    {
        let [name, first, second, left, right] = blanks else {
            return None;
        };
        let first = tokens.bytes(*first);
        let second = tokens.bytes(*second);
        let same = tokens.bytes(*name) == function;
        let distinct = first != second;
        if !(same & distinct) {
            return None;
        }
        Some(Body {
            left: Parameter::named(tokens.bytes(*left), first, second)?,
            right: Parameter::named(tokens.bytes(*right), first, second)?,
        })
    }

    /// The body of that function in a C file, or None where the file has another form.
    pub fn of(alloc: Global, tokens: &Tokens, function: &[u8]) -> Result<Option<Body>, NoMemory>
        ensures found { IfOk result (λ found. found ≡ body_of function.now (words_of tokens.now)) }
        ensures plus { IfOk result (λ found. IsSome found → PLUS < length tokens.now.tokens) }
    {
        match holes(alloc, &C_FORM, tokens)? {
            Some(blanks) => Ok(Body::from(tokens, &blanks, function)),
            None => Ok(None),
        }
    }

    /// What the function returns to the call: the sum of the arguments, which are the actuals'
    /// 32-bit signed values, or None where int can't hold it (ISO C 6.5).
    pub fn sum(self, call: &Call) -> Option<i32>
        ensures { result ≡ held_by_int (sum_of call.now.left call.now.right self) }
    {
        self.left
            .argument(call)
            .checked_add(self.right.argument(call))
    }
}

impl Parameter {
    // which of two parameters the name is
    fn named(name: &[u8], first: &[u8], second: &[u8]) -> Option<Parameter>
        ensures { result ≡ parameter_of first.now second.now name.now }
    {
        if name == first {
            Some(Parameter::First)
        } else if name == second {
            Some(Parameter::Second)
        } else {
            None
        }
    }

    fn argument(self, call: &Call) -> i32
        ensures { result ≡ argument call.now.left call.now.right self }
    {
        match self {
            Parameter::First => call.left.cast_signed(),
            Parameter::Second => call.right.cast_signed(),
        }
    }
}

// the sum of a body, and the place of its `+`
fn sum_at(tokens: &Tokens, call: &Call, body: Body) -> Sum
    requires { PLUS < length tokens.now.tokens }
    ensures { result ≡ sum_of_body (call_shown call.now) tokens.now body }
{
    let (line, column) = tokens.line_column(tokens.place(PLUS));
    Sum {
        value: body.sum(call),
        line,
        column,
    }
}

/// The sum that a C file makes of the call in a SystemVerilog file, or None where one of them has
/// another form.
pub fn sum_of(alloc: Global, sv: &Tokens, c: &Tokens) -> Result<Option<Sum>, NoMemory>
    ensures { IfOk result (λ sum. sum ≡ sum_of_tokens sv.now c.now) }
{
    let Some(call) = Call::of(alloc, sv)? else {
        return Ok(None);
    };
    match Body::of(alloc, c, &call.function)? {
        Some(body) => Ok(Some(sum_at(c, &call, body))),
        None => Ok(None),
    }
}
