//! Words that stand for a choice of their production.

ghost use Rattle.std.specs.Prelude.{◌≡◌};
ghost use Rattle.sv_tree.specs.Kinds as spec;

use crate::class::Class;

/// A vector type (6.3, 6.11).
#[derive(Clone, Copy, Debug, PartialEq, Eq)]
pub enum VectorKind {
    /// `bit`
    Bit,
    /// `logic`
    Logic,
    /// `reg`
    Reg,
}

impl VectorKind {
    /// The choice that a token of this class stands for, if it does.
    pub fn of(class: Option<Class>) -> Option<VectorKind>
        ensures { result ≡ spec.vector_of class }
    {
        match class {
            Some(Class::Bit) => Some(VectorKind::Bit),
            Some(Class::Logic) => Some(VectorKind::Logic),
            Some(Class::Reg) => Some(VectorKind::Reg),
            _ => None,
        }
    }
}

/// An integer type of a fixed width (6.11).
#[derive(Clone, Copy, Debug, PartialEq, Eq)]
pub enum WholeKind {
    /// `byte`
    Byte,
    /// `shortint`
    ShortInt,
    /// `int`
    Int,
    /// `longint`
    LongInt,
}

impl WholeKind {
    /// The choice that a token of this class stands for, if it does.
    pub fn of(class: Option<Class>) -> Option<WholeKind>
        ensures { result ≡ spec.whole_of class }
    {
        match class {
            Some(Class::Byte) => Some(WholeKind::Byte),
            Some(Class::ShortInt) => Some(WholeKind::ShortInt),
            Some(Class::Int) => Some(WholeKind::Int),
            Some(Class::LongInt) => Some(WholeKind::LongInt),
            _ => None,
        }
    }
}

/// A signing (6.11.3).
#[derive(Clone, Copy, Debug, PartialEq, Eq)]
pub enum Signing {
    /// `signed`
    Signed,
    /// `unsigned`
    Unsigned,
}

impl Signing {
    /// The choice that a token of this class stands for, if it does.
    pub fn of(class: Option<Class>) -> Option<Signing>
        ensures { result ≡ spec.signing_of class }
    {
        match class {
            Some(Class::Signed) => Some(Signing::Signed),
            Some(Class::Unsigned) => Some(Signing::Unsigned),
            _ => None,
        }
    }
}

/// A lifetime (6.21).
#[derive(Clone, Copy, Debug, PartialEq, Eq)]
pub enum Lifetime {
    /// `automatic`
    Automatic,
    /// `static`
    Static,
}

impl Lifetime {
    /// The choice that a token of this class stands for, if it does.
    pub fn of(class: Option<Class>) -> Option<Lifetime>
        ensures { result ≡ spec.lifetime_of class }
    {
        match class {
            Some(Class::Automatic) => Some(Lifetime::Automatic),
            Some(Class::Static) => Some(Lifetime::Static),
            _ => None,
        }
    }
}

/// The direction of a formal (13.3).
#[derive(Clone, Copy, Debug, PartialEq, Eq)]
pub enum Direction {
    /// `input`
    Input,
    /// `output`
    Output,
    /// `inout`
    Inout,
}

impl Direction {
    /// The choice that a token of this class stands for, if it does.
    pub fn of(class: Option<Class>) -> Option<Direction>
        ensures { result ≡ spec.direction_of class }
    {
        match class {
            Some(Class::Input) => Some(Direction::Input),
            Some(Class::Output) => Some(Direction::Output),
            Some(Class::Inout) => Some(Direction::Inout),
            _ => None,
        }
    }
}

/// The property of an import (35.5.2).
#[derive(Clone, Copy, Debug, PartialEq, Eq)]
pub enum Property {
    /// `context`
    Context,
    /// `pure`
    Pure,
}

impl Property {
    /// The choice that a token of this class stands for, if it does.
    pub fn of(class: Option<Class>) -> Option<Property>
        ensures { result ≡ spec.property_of class }
    {
        match class {
            Some(Class::Context) => Some(Property::Context),
            Some(Class::Pure) => Some(Property::Pure),
            _ => None,
        }
    }
}

/// A step of one (11.4.2).
#[derive(Clone, Copy, Debug, PartialEq, Eq)]
pub enum StepOperator {
    /// `++`
    Increment,
    /// `--`
    Decrement,
}

impl StepOperator {
    /// The choice that a token of this class stands for, if it does.
    pub fn of(class: Option<Class>) -> Option<StepOperator>
        ensures { result ≡ spec.step_of class }
    {
        match class {
            Some(Class::Increment) => Some(StepOperator::Increment),
            Some(Class::Decrement) => Some(StepOperator::Decrement),
            _ => None,
        }
    }
}

/// A task that shows its actuals (21.2.1).
#[derive(Clone, Copy, Debug, PartialEq, Eq)]
pub enum ShowKind {
    /// `$display`
    Display,
    /// `$write`
    Write,
}

impl ShowKind {
    /// The choice that a token of this class stands for, if it does.
    pub fn of(class: Option<Class>) -> Option<ShowKind>
        ensures { result ≡ spec.show_of class }
    {
        match class {
            Some(Class::Display) => Some(ShowKind::Display),
            Some(Class::Write) => Some(ShowKind::Write),
            _ => None,
        }
    }
}
