// Whether the arguments of a call fit what is called.
ghost use Rattle.std.specs.Prelude.{◌≡◌, ◌&&◌, ◌++◌, [], ◌∷◌, IfOk, codes, filter, length, map};
ghost use Rattle.wf_ast.specs.Accept.{flow_signature, required};
ghost use Rattle.wf_ast.specs.Func.{all_among, call_takes, logs_one, takes};
ghost use Rattle.wf_ast.specs.Tree.{field_names, fields};
ghost use Rattle.wf_ast.specs.View.{field_view, param_view, params_view};
ghost use Rattle.wf_symbols.specs.Around.{SameNames};
ghost use Rattle.wf_symbols.specs.Names.{names_of};
ghost use Rattle.wf_ast.specs.Functions.{signature_of};
ghost use Rattle.wf_value.specs.HttpRequest.{is_among};

use std::alloc::Global;
use wf_ast::{ArgumentNames, Flow, NamedTemplate, Param};
use wf_symbols::{Names, param_names};
use wf_value::OutOfMemory;

// ---- functions: few arguments may be given, so they are looked for one by one

fn is_listed(name: &str, names: &[&str]) -> bool
    ensures { result ≡ is_among name.now (map (λ n. n.now) names.now) }
{
    for known in names {
        if name == *known {
            return true;
        }
    }
    false
}

fn is_given(name: &str, arguments: &[NamedTemplate]) -> bool
    ensures { result ≡ is_among name.now (field_names (fields (map field_view arguments.now))) }
{
    for argument in arguments {
        if name == argument.name.as_str() {
            return true;
        }
    }
    false
}

/// Each argument is one that the function takes.
fn are_taken(arguments: &[NamedTemplate], names: &ArgumentNames) -> bool
    ensures { result ≡ all_among (field_names (fields (map field_view arguments.now)))
        ((signature_of names.now).needs ++ (signature_of names.now).may) }
{
    for argument in arguments {
        let name = argument.name.as_str();
        if !is_listed(name, names.needs) && !is_listed(name, names.may) {
            return false;
        }
    }
    true
}

/// Each of the names is given.
fn are_given(needs: &[&str], arguments: &[NamedTemplate]) -> bool
    ensures { result ≡ all_among (map (λ n. n.now) needs.now)
        (field_names (fields (map field_view arguments.now))) }
{
    for need in needs {
        if !is_given(need, arguments) {
            return false;
        }
    }
    true
}

fn is_logged(name: &str) -> bool
    ensures { result ≡ is_among name.now (codes "data" ∷ codes "text" ∷ codes "json" ∷ []) }
{
    name == "data" || name == "text" || name == "json"
}

/// Exactly one of the three that are logged is given.
fn logs_one(arguments: &[NamedTemplate]) -> bool
    ensures { result ≡ logs_one (field_names (fields (map field_view arguments.now))) }
{
    let mut count = 0usize;
    for argument in arguments {
        if is_logged(argument.name.as_str()) {
            count += 1;
        }
    }
    count == 1
}

/// The function of this name takes the arguments.
pub(crate) fn function_takes(name: &str, names: &ArgumentNames, arguments: &[NamedTemplate]) -> bool
    ensures { result ≡ call_takes name.now (signature_of names.now)
        (field_names (fields (map field_view arguments.now))) }
{
    are_taken(arguments, names)
        && are_given(names.needs, arguments)
        && (name != "sys.log" || logs_one(arguments))
}

// ---- workflows: parameters and arguments may be many, so each are a table

fn argument_names(alloc: Global, arguments: &[NamedTemplate]) -> Result<Names, OutOfMemory>
    ensures { IfOk result (λ names. SameNames (names_of names)
        (field_names (fields (map field_view arguments.now)))) }
{
    let mut names = Names::new(alloc);
    for argument in arguments {
        names.add(argument.name.as_str())?;
    }
    Ok(names)
}

/// Each argument is a parameter's.
fn are_known(arguments: &[NamedTemplate], known: &Names) -> bool
    ensures { result ≡ all_among (field_names (fields (map field_view arguments.now)))
        (names_of known.now) }
{
    for argument in arguments {
        if !known.has(argument.name.as_str()) {
            return false;
        }
    }
    true
}

/// Each parameter without a default has an argument.
fn are_passed(params: &[Param], given: &Names) -> bool
    ensures { result ≡ all_among (required (map param_view params.now)) (names_of given.now) }
{
    for param in params {
        if param.default.is_none() && !given.has(param.name.as_str()) {
            return false;
        }
    }
    true
}

fn tables_fit(flow: &Flow, arguments: &[NamedTemplate], known: &Names, given: &Names) -> bool
    ensures { result ≡ (all_among (field_names (fields (map field_view arguments.now)))
        (names_of known.now) && all_among (required (params_view flow.now.params))
        (names_of given.now)) }
{
    are_known(arguments, known) && are_passed(flow.params.items(), given)
}

/// The workflow takes the arguments.
pub(crate) fn flow_takes(
    alloc: Global,
    flow: &Flow,
    arguments: &[NamedTemplate],
) -> Result<bool, OutOfMemory>
    ensures { IfOk result (λ b. b ≡ takes (flow_signature (params_view flow.now.params))
        (field_names (fields (map field_view arguments.now)))) }
{
    let known = param_names(alloc, &flow.params)?;
    let given = argument_names(alloc, arguments)?;
    Ok(tables_fit(flow, arguments, &known, &given))
}
