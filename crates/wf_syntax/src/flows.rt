// Workflows.
ghost use Rattle.std.specs.Prelude.{◌≡◌, [], ◌∷◌, map as list_map, MatchResult};
ghost use Rattle.wf_ast.specs.View.{flow_view, flows_view, param_view, params_view, program_view};
ghost use Rattle.wf_syntax_rules.specs.Meaning.{AreParams, Else, IsFlow, IsParam, IsProgram, OfList};
ghost use Rattle.wf_syntax_rules.specs.Faults.{rooted};
ghost use Rattle.wf_syntax_rules.specs.Rules as rules;
ghost use Rattle.wf_syntax_rules.specs.Rules.{Flows as AllFlows, Parameter, Parameters, at};
ghost use Rattle.wf_syntax.specs.Answers.{Fails, FailsAmong, IsSoundAnd, AreSoundAnd};
ghost use Rattle.wf_value.specs.declared.stop.Stop.TheVariants as stop;
ghost use Rattle.wf_tree.specs.Plain.{plain_tree};
ghost use Rattle.wf_tree.specs.Trees.{Items, list, map, pairs_of, text};

use crate::faults::map_fault;
use crate::literals::literal;
use crate::steps::{steps, steps_at};
use crate::stop::Stop;
use crate::words::owned;
use std::alloc::Global;
use wf_ast::{Flow, Flows, Param, Params, Program};
use wf_syntax_rules::SyntaxKind;
use wf_syntax_words::{field, has, is_name, single};
use wf_tree::{Tree, TreeMap};

/// A parameter: its name, or a map of one from its name to its default.
fn param(alloc: Global, tree: &Tree) -> Result<Param, Stop>
    ensures { MatchResult result (λ p. IsSoundAnd Parameter (plain_tree tree.now)
        (IsParam (param_view p) (plain_tree tree.now)))
        (λ stop. Fails Parameter (plain_tree tree.now) stop) }
{
    if let Tree::Text(name) = tree {
        return bare_param(alloc, name.as_str());
    }
    let Some((name, tree)) = single(tree) else {
        return Err(Stop::here(alloc, SyntaxKind::WrongKind));
    };
    if !is_name(name) {
        return Err(Stop::here(alloc, SyntaxKind::WrongKind));
    }
    match literal(alloc, tree) {
        Ok(default) => Ok(Param {
            name: owned(alloc, name)?,
            default: Some(default),
        }),
        Err(stop) => Err(stop.at_key(alloc, name)),
    }
}

/// A parameter without a default.
fn bare_param(alloc: Global, name: &str) -> Result<Param, Stop>
    ensures { MatchResult result (λ p. IsSoundAnd Parameter (text name.now)
        (IsParam (param_view p) (text name.now))) (λ stop. Fails Parameter (text name.now) stop) }
{
    if is_name(name) {
        Ok(Param {
            name: owned(alloc, name)?,
            default: None,
        })
    } else {
        Err(Stop::here(alloc, SyntaxKind::WrongKind))
    }
}

fn params(alloc: Global, tree: &Tree) -> Result<Params, Stop>
    ensures { MatchResult result (λ ps. IsSoundAnd Parameters (plain_tree tree.now)
        (AreParams (params_view ps) (plain_tree tree.now)))
        (λ stop. Fails Parameters (plain_tree tree.now) stop) }
{
    let Tree::List(items) = tree else {
        return Err(Stop::here(alloc, SyntaxKind::WrongKind));
    };
    let items = items.items();
    let mut made = Params::new(alloc)?;
    'each: for index in 0..items.len() {
        match param(alloc, &items[index]) {
            Ok(param) => made.push(param)?,
            Err(stop) => return Err(stop.at_index(index)),
        }
    }
    Ok(made)
}

/// The parameters at a key, and none where they aren't there.
fn params_at(alloc: Global, fields: &TreeMap, key: &str) -> Result<Params, Stop>
    ensures { MatchResult result (λ ps. AreSoundAnd (at key.now Parameters (pairs_of fields.now))
        (Else (params_view ps) [] key.now (pairs_of fields.now) AreParams))
        (λ stop. FailsAmong (at key.now Parameters (pairs_of fields.now)) stop) }
{
    match field(fields, key) {
        None => Ok(Params::new(alloc)?),
        Some(tree) => match params(alloc, tree) {
            Ok(params) => Ok(params),
            Err(stop) => Err(stop.at_key(alloc, key)),
        },
    }
}

/// The workflow of a name.
fn flow(alloc: Global, name: &str, tree: &Tree) -> Result<Flow, Stop>
    ensures { MatchResult result (λ f. IsSoundAnd (rules.Flow name.now) (plain_tree tree.now)
        (IsFlow (flow_view f) name.now (plain_tree tree.now)))
        (λ stop. Fails (rules.Flow name.now) (plain_tree tree.now) stop) }
{
    let Tree::Map(fields) = tree else {
        return Err(Stop::here(alloc, SyntaxKind::WrongKind));
    };
    if let Some(kind) = map_fault(fields, &["steps"], &["params"]) {
        return Err(Stop::here(alloc, kind));
    }
    if !is_name(name) {
        return Err(Stop::here(alloc, SyntaxKind::WrongKind));
    }
    let params = params_at(alloc, fields, "params")?;
    match steps_at(alloc, fields, "steps")? {
        Some(steps) => Ok(Flow {
            name: owned(alloc, name)?,
            params,
            steps,
        }),
        None => Err(Stop::here(alloc, SyntaxKind::MissingField)),
    }
}

/// The workflows of a map: `main` first, then the others by name.
pub(crate) fn program(alloc: Global, fields: &TreeMap) -> Result<Program, Stop>
    ensures { MatchResult result (λ p. IsSoundAnd AllFlows (map (pairs_of fields.now))
        (IsProgram (program_view p) (map (pairs_of fields.now))))
        (λ stop. Fails AllFlows (map (pairs_of fields.now)) stop) }
{
    if !has(fields, "main") {
        return Err(Stop::here(alloc, SyntaxKind::MissingField));
    }
    let mut main = None;
    let mut others = Vec::new(alloc);
    'each: for pair in fields.pairs() {
        let name = pair.0.as_str();
        match flow(alloc, name, &pair.1) {
            Ok(flow) => {
                if name == "main" {
                    main = Some(flow);
                } else {
                    match others.push(flow) {
                        Ok(()) => {}
                        Err(_) => return Err(Stop::OutOfMemory),
                    }
                }
            }
            Err(stop) => return Err(stop.at_key(alloc, name)),
        }
    }
    match main {
        Some(main) => Ok(Program {
            flows: in_order(alloc, main, others)?,
        }),
        None => Err(Stop::here(alloc, SyntaxKind::MissingField)),
    }
}

/// `main`, then the others.
fn in_order(alloc: Global, main: Flow, others: Vec<Flow>) -> Result<Flows, Stop>
    ensures { MatchResult result (λ fs. flows_view fs
        ≡ flow_view main ∷ list_map flow_view others.items) (λ s. s ≡ stop.OutOfMemory) }
{
    let mut flows = Flows::new(alloc)?;
    flows.push(main)?;
    'each: for flow in others {
        flows.push(flow)?;
    }
    Ok(flows)
}

/// The program whose only workflow has these steps.
pub(crate) fn main_alone(alloc: Global, tree: &Tree) -> Result<Program, Stop>
    ensures { MatchResult result (λ p. OfList (plain_tree tree.now)
        (λ xs. IsSoundAnd AllFlows (rooted (list xs))
        (IsProgram (program_view p) (rooted (list xs)))))
        (λ stop. (xs : Items) → plain_tree tree.now ≡ list xs
        → Fails AllFlows (rooted (list xs)) stop) }
{
    let steps = match steps(alloc, tree) {
        Ok(steps) => steps,
        Err(stop) => return Err(stop.at_key(alloc, "steps").at_key(alloc, "main")),
    };
    let main = Flow {
        name: owned(alloc, "main")?,
        params: Params::new(alloc)?,
        steps,
    };
    Ok(Program {
        flows: in_order(alloc, main, Vec::new(alloc))?,
    })
}
