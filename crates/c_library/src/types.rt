//! The types of the calls of `svdpi.h`, and how many arguments they take.
ghost use Rattle.std.specs.Prelude.{◌≡◌, ◌≤◌, slice_get};
ghost use Rattle.dpi_rules.specs.Least.{noted};
ghost use Rattle.c_library.specs.Types as spec;

use crate::call::{Call, Indices, States};
use c_base::{CBase, CType};
use dpi_rules::{Violation, note};

fn pointer(base: CBase, base_const: bool) -> CType
    ensures { result ≡ spec.pointer base base_const }
{
    CType {
        base,
        base_const,
        stars: 1,
        inner_const: false,
    }
}

fn handle() -> CType
    ensures { result ≡ spec.handle }
{
    CType::plain(CBase::Handle)
}

fn scope() -> CType
    ensures { result ≡ spec.scope }
{
    CType::plain(CBase::Scope)
}

fn int() -> CType
    ensures { result ≡ spec.int }
{
    CType::plain(CBase::Int)
}

fn void() -> CType
    ensures { result ≡ spec.void }
{
    CType::plain(CBase::Void)
}

/// `const char *`
fn text() -> CType
    ensures { result ≡ spec.text }
{
    pointer(CBase::Char, true)
}

/// `void *`
fn user() -> CType
    ensures { result ≡ spec.user }
{
    pointer(CBase::Void, false)
}

/// `svBit` and `svLogic`
fn scalar() -> CType
    ensures { result ≡ spec.scalar }
{
    CType::plain(CBase::UnsignedChar)
}

/// `svBitVecVal` or `svLogicVecVal`
fn word_base(states: States) -> CBase
    ensures { result ≡ spec.word_base states }
{
    match states {
        States::Two => CBase::UnsignedInt,
        States::Four => CBase::LogicVec,
    }
}

fn words(states: States) -> CType
    ensures { result ≡ spec.words states }
{
    pointer(word_base(states), false)
}

fn const_words(states: States) -> CType
    ensures { result ≡ spec.const_words states }
{
    pointer(word_base(states), true)
}

/// `const char **`
fn text_pointer() -> CType
    ensures { result ≡ spec.text_pointer }
{
    CType {
        base: CBase::Char,
        base_const: true,
        stars: 2,
        inner_const: false,
    }
}

fn least_indices(indices: Indices) -> u32
    ensures count { result ≡ spec.least_indices indices }
    ensures bound { result ≤ 3 }
{
    match indices {
        Indices::Open | Indices::One => 1,
        Indices::Two => 2,
        Indices::Three => 3,
    }
}

fn most_indices(indices: Indices) -> u32
    ensures count { result ≡ spec.most_indices indices }
    ensures bound { result ≤ 3 }
{
    match indices {
        Indices::One => 1,
        Indices::Two => 2,
        Indices::Open | Indices::Three => 3,
    }
}

fn nth(types: &[CType], n: u32) -> Option<CType>
    ensures { result ≡ slice_get types.now n }
{
    types.get(n as usize).copied()
}

impl Call {
    /// The type of the result (IEEE 1800-2017, Annex I).
    pub fn result(self) -> CType
        ensures { result ≡ spec.result_of self }
    {
        match self {
            Call::Query(_)
            | Call::Dimensions
            | Call::SizeOfArray
            | Call::PutUserData
            | Call::CallerInfo
            | Call::IsDisabledState => int(),
            Call::ArrayPointer | Call::ElementPointer(_) | Call::GetUserData => user(),
            Call::GetElement(_, _) | Call::GetBit(_) => scalar(),
            Call::PutElement(_, _)
            | Call::GetWords(_, _)
            | Call::PutWords(_, _)
            | Call::PutBit(_)
            | Call::GetPart(_)
            | Call::PutPart(_)
            | Call::AckDisabledState => void(),
            Call::GetScope | Call::SetScope | Call::ScopeFromName => scope(),
            Call::NameFromScope => text(),
        }
    }

    /// The fewest arguments that the call takes.
    pub fn least_arguments(self) -> u32
        ensures { result ≡ spec.least self }
    {
        match self {
            Call::ElementPointer(indices) | Call::GetElement(_, indices) => {
                least_indices(indices) + 1
            }
            Call::PutElement(_, indices)
            | Call::GetWords(_, indices)
            | Call::PutWords(_, indices) => least_indices(indices) + 2,
            _ => self.fixed_arguments(),
        }
    }

    /// The most arguments that the call takes: for the declarations with `...` three indices.
    pub fn most_arguments(self) -> u32
        ensures { result ≡ spec.most self }
    {
        match self {
            Call::ElementPointer(indices) | Call::GetElement(_, indices) => {
                most_indices(indices) + 1
            }
            Call::PutElement(_, indices)
            | Call::GetWords(_, indices)
            | Call::PutWords(_, indices) => most_indices(indices) + 2,
            _ => self.fixed_arguments(),
        }
    }

    /// How many arguments a call without indices takes; the others count as taking none.
    fn fixed_arguments(self) -> u32
        ensures { result ≡ spec.fixed self }
    {
        match self {
            Call::Dimensions
            | Call::ArrayPointer
            | Call::SizeOfArray
            | Call::SetScope
            | Call::NameFromScope
            | Call::ScopeFromName => 1,
            Call::Query(_) | Call::GetBit(_) | Call::GetUserData | Call::CallerInfo => 2,
            Call::PutBit(_) | Call::PutUserData => 3,
            Call::GetPart(_) | Call::PutPart(_) => 4,
            _ => 0,
        }
    }

    /// The type of a parameter with three indices, where the call takes any.
    fn type_at(self, n: u32) -> Option<CType>
        ensures { result ≡ slice_get (spec.types self) n }
    {
        match self {
            Call::Query(_) => nth(&[handle(), int()], n),
            Call::Dimensions | Call::ArrayPointer | Call::SizeOfArray => nth(&[handle()], n),
            Call::ElementPointer(_) | Call::GetElement(_, _) => {
                nth(&[handle(), int(), int(), int()], n)
            }
            Call::PutElement(_, _) => nth(&[handle(), scalar(), int(), int(), int()], n),
            Call::GetWords(s, _) => nth(&[words(s), handle(), int(), int(), int()], n),
            Call::PutWords(s, _) => nth(&[handle(), const_words(s), int(), int(), int()], n),
            Call::GetBit(s) => nth(&[const_words(s), int()], n),
            Call::PutBit(s) => nth(&[words(s), int(), scalar()], n),
            Call::GetPart(s) => nth(&[words(s), const_words(s), int(), int()], n),
            Call::PutPart(s) => nth(&[words(s), CType::plain(word_base(s)), int(), int()], n),
            Call::SetScope | Call::NameFromScope => nth(&[scope()], n),
            Call::ScopeFromName => nth(&[text()], n),
            Call::PutUserData => nth(&[scope(), user(), user()], n),
            Call::GetUserData => nth(&[scope(), user()], n),
            Call::CallerInfo => nth(&[text_pointer(), pointer(CBase::Int, false)], n),
            Call::GetScope | Call::IsDisabledState | Call::AckDisabledState => None,
        }
    }

    /// The type of a parameter, counted from 0; None past the most that the call takes. Every index
    /// is an `int` (IEEE 1800-2017, Annex I).
    pub fn parameter(self, n: u32) -> Option<CType>
        ensures { result ≡ spec.parameter self n }
    {
        if n < self.most_arguments() {
            self.type_at(n)
        } else {
            None
        }
    }
}

/// Notes rule 8 at the called name, where the call doesn't take so many arguments.
pub fn note_count(file: u32, token: u32, call: Call, count: u32, found: &mut Option<Violation>)
    ensures { found.new ≡ noted found.old (spec.count_violations file token call count) }
{
    let takes = call.least_arguments() <= count && count <= call.most_arguments();
    if !takes {
        let violation = Violation {
            file,
            token,
            rule: 8,
        };
        note(found, violation);
    }
}
