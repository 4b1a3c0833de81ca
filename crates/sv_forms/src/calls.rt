//! Calls in the initialisers of variables of a module, which has none (IEEE 1800-2017, 6.8: they
//! are set before any process runs).
ghost use Rattle.std.specs.Prelude.{◌≡◌, map, option_map, [], ◌∷◌};
ghost use Rattle.dpi_rules.specs.Order.{violation};
ghost use Rattle.dpi_rules.specs.Least.{noted};
ghost use Rattle.sv_forms.specs.Calls as spec;

use dpi_rules::{Violation, note};
use sqlite_items::Boxed;
use sv_tree::{Call, Chain, Choice, Expr, Init, Lvalue, Operand, Primary, Select, Term};

/// The rule on calls in initialisers.
const CALL_RULE: u8 = 29;

fn note_call_at(file: u32, token: u32, found: &mut Option<Violation>)
    ensures { found.new ≡ noted found.old (violation file token 29 ∷ []) }
{
    let violation = Violation {
        file,
        token,
        rule: CALL_RULE,
    };
    note(found, violation);
}

/// Notes rule 29 at each call in the expression.
#[cycle(calls)]
pub(crate) fn note_expr(file: u32, expr: &Expr, found: &mut Option<Violation>)
    ensures { found.new ≡ noted found.old (spec.in_expr file expr.now) }
{
    note_chain(file, &expr.chain, found);
    note_behind(file, &expr.choice, found);
}

/// Notes rule 29 at each call from the `?` on, if there is one.
#[cycle(calls)]
fn note_behind(file: u32, choice: &Option<Boxed<Choice>>, found: &mut Option<Violation>)
    ensures { found.new ≡ noted found.old (spec.where_there (option_map (spec.in_choice file) choice.now)) }
{
    if let Some(choice) = choice {
        note_choice(file, choice.get(), found);
    }
}

#[cycle(calls)]
fn note_exprs(file: u32, exprs: &[Expr], found: &mut Option<Violation>)
    ensures { found.new ≡ noted found.old (spec.all_of (map (spec.in_expr file) exprs.now)) }
{
    for expr in exprs {
        note_expr(file, expr, found);
    }
}

#[cycle(calls)]
fn note_choice(file: u32, choice: &Choice, found: &mut Option<Violation>)
    ensures { found.new ≡ noted found.old (spec.in_choice file choice.now) }
{
    note_expr(file, &choice.yes, found);
    note_expr(file, &choice.no, found);
}

#[cycle(calls)]
fn note_chain(file: u32, chain: &Chain, found: &mut Option<Violation>)
    ensures { found.new ≡ noted found.old (spec.in_chain file chain.now) }
{
    note_operand(file, &chain.first, found);
    note_terms(file, chain.rest.as_slice(), found);
}

#[cycle(calls)]
fn note_terms(file: u32, terms: &[Term], found: &mut Option<Violation>)
    ensures { found.new ≡ noted found.old (spec.all_of (map (spec.in_term file) terms.now)) }
{
    for term in terms {
        note_term(file, term, found);
    }
}

#[cycle(calls)]
fn note_term(file: u32, term: &Term, found: &mut Option<Violation>)
    ensures { found.new ≡ noted found.old (spec.in_term file term.now) }
{
    note_operand(file, &term.operand, found);
}

#[cycle(calls)]
fn note_operand(file: u32, operand: &Operand, found: &mut Option<Violation>)
    ensures { found.new ≡ noted found.old (spec.in_operand file operand.now) }
{
    note_primary(file, &operand.primary, found);
}

#[cycle(calls)]
fn note_primary(file: u32, primary: &Primary, found: &mut Option<Violation>)
    ensures { found.new ≡ noted found.old (spec.in_primary file primary.now) }
{
    match primary {
        Primary::Number(_) | Primary::Text(_) | Primary::Null(_) => {}
        Primary::Place(lvalue) => note_lvalue(file, lvalue, found),
        Primary::Call(call) => note_call(file, call, found),
        Primary::Group(_, expr) | Primary::Signed(_, expr) | Primary::Unsigned(_, expr) => {
            note_expr(file, expr.get(), found)
        }
        Primary::Concatenation(_, exprs) | Primary::Repetition(_, _, exprs) => {
            note_exprs(file, exprs.as_slice(), found)
        }
    }
}

#[cycle(calls)]
fn note_lvalue(file: u32, lvalue: &Lvalue, found: &mut Option<Violation>)
    ensures { found.new ≡ noted found.old (spec.in_lvalue file lvalue.now) }
{
    note_selects(file, lvalue.selects.as_slice(), found);
}

#[cycle(calls)]
fn note_selects(file: u32, selects: &[Select], found: &mut Option<Violation>)
    ensures { found.new ≡ noted found.old (spec.all_of (map (spec.in_select file) selects.now)) }
{
    for select in selects {
        note_select(file, select, found);
    }
}

#[cycle(calls)]
fn note_select(file: u32, select: &Select, found: &mut Option<Violation>)
    ensures { found.new ≡ noted found.old (spec.in_select file select.now) }
{
    match select {
        Select::Range(_, _, _) => {}
        Select::Index(_, expr) | Select::Up(_, expr, _) | Select::Down(_, expr, _) => {
            note_expr(file, expr.get(), found)
        }
    }
}

#[cycle(calls)]
fn note_call(file: u32, call: &Call, found: &mut Option<Violation>)
    ensures { found.new ≡ noted found.old (spec.in_call file call.now) }
{
    note_call_at(file, call.name.token, found);
    note_exprs(file, call.actuals.as_slice(), found);
}

/// Notes rule 29 at each call in the initialiser.
#[cycle(inits)]
pub(crate) fn note_init(file: u32, init: &Init, found: &mut Option<Violation>)
    ensures { found.new ≡ noted found.old (spec.in_init file init.now) }
{
    match init {
        Init::Value(expr) => note_expr(file, expr, found),
        Init::Pattern(_, parts) => note_inits(file, parts.as_slice(), found),
    }
}

#[cycle(inits)]
fn note_inits(file: u32, inits: &[Init], found: &mut Option<Violation>)
    ensures { found.new ≡ noted found.old (spec.all_of (map (spec.in_init file) inits.now)) }
{
    for init in inits {
        note_init(file, init, found);
    }
}
