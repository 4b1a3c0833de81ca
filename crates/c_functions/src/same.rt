//! When two declarations give a function the same type (ISO C 6.7.6.3, paragraph 15).
ghost use Rattle.std.specs.Prelude.{◌≡◌, is_some, map};
ghost use Rattle.std.specs.List.{list_all};
ghost use Rattle.c_functions.specs.Params.{param_type};
ghost use Rattle.c_functions.specs.Types.{function_type, param_types};
ghost use Rattle.c_functions.specs.Same as spec;

use crate::params::param_type;
use crate::written::result_type;
use c_base::CType;
use c_tree::{Function, Param, Params};

/// Whether both are the same type, const by const.
pub(crate) fn same_type(first: CType, other: CType) -> bool
    ensures { result ≡ spec.same_type first other }
{
    first.base == other.base
        && first.base_const == other.base_const
        && first.stars == other.stars
        && first.inner_const == other.inner_const
}

fn same_part(first: Option<CType>, other: Option<CType>) -> bool
    ensures { result ≡ spec.same_part first other }
{
    match first {
        None => false,
        Some(first) => match other {
            None => false,
            Some(other) => same_type(first, other),
        },
    }
}

fn same_params(first: &[Param], other: &[Param]) -> bool
    ensures { result ≡ spec.same_parts (map param_type first.now) (map param_type other.now) }
{
    let mut rest = other;
    for param in first {
        match rest {
            [] => return false,
            [next, more @ ..] => {
                if !same_part(param_type(param), param_type(next)) {
                    return false;
                }
                rest = more;
            }
        }
    }
    rest.is_empty()
}

fn are_known(params: &[Param]) -> bool
    ensures { result ≡ list_all is_some (map param_type params.now) }
{
    for param in params {
        if param_type(param).is_none() {
            return false;
        }
    }
    true
}

fn listed(params: &Params) -> &[Param]
    ensures { map param_type result.now ≡ param_types params.now }
{
    match params {
        Params::Void(_) => &[],
        Params::List(params) => params.as_slice(),
    }
}

/// Whether no part of a function's type is refused.
pub(crate) fn is_known(function: &Function) -> bool
    ensures { result ≡ spec.is_known (function_type function.now) }
{
    result_type(function).is_some() && are_known(listed(&function.params))
}

/// Whether two declarations give their function the same type: the same result, and as many
/// parameters of the same types, none of them refused (ISO C 6.7.6.3, paragraph 15).
pub(crate) fn same_types(first: &Function, other: &Function) -> bool
    ensures { result ≡ spec.same_types (function_type first.now) (function_type other.now) }
{
    same_part(result_type(first), result_type(other))
        && same_params(listed(&first.params), listed(&other.params))
}
