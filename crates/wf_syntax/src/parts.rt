// What stands in the fields of a step or an arm.
ghost use Rattle.std.specs.Prelude.{◌≡◌, option_map, MatchResult};
ghost use Rattle.wf_ast.specs.View.{body_view};
ghost use Rattle.wf_syntax.specs.Answers.{FailsAmong, AreSoundAnd};
ghost use Rattle.wf_syntax.specs.Forms.{AreCallParts, AreValueParts, block_form, body_of, call_form, call_part_keys, first_of, loop_form, row, try_form, value_form, value_part_keys};
ghost use Rattle.wf_value.specs.declared.stop.Stop.TheVariants as stop;
ghost use Rattle.wf_tree.specs.Trees.{pairs_of};

use crate::entries::entries_at;
use crate::policies::policy_at;
use crate::stop::Stop;
use crate::values::{arguments_at, value_at};
use crate::words::{name_at, text_at};
use std::alloc::Global;
use wf_ast::{
    Arms, Body, CallBody, Entries, Except, LoopBody, NamedTemplates, ParallelBody, Policy,
    StepList, Template, TryBody,
};
use wf_tree::TreeMap;
use wf_value::Text;

/// Each field of all forms, where it is there, in four groups in the order of the bytes of their keys.
#[derive(Drop)]
pub(crate) struct Parts {
    pub(crate) calls: CallParts,
    pub(crate) loops: LoopParts,
    pub(crate) values: ValueParts,
    pub(crate) blocks: BlockParts,
}

/// The fields from `args` to `condition`.
pub(crate) struct CallParts {
    pub(crate) args: NamedTemplates,
    pub(crate) assign: Option<Entries>,
    pub(crate) call: Option<Text>,
    pub(crate) condition: Option<Template>,
}

/// The fields from `except` to `parallel`.
pub(crate) struct LoopParts {
    pub(crate) except: Option<Except>,
    pub(crate) repeated: Option<LoopBody>,
    pub(crate) next: Option<Text>,
    pub(crate) parallel: Option<ParallelBody>,
}

/// The fields from `raise` to `return`.
pub(crate) struct ValueParts {
    pub(crate) raised: Option<Template>,
    pub(crate) result: Option<Text>,
    pub(crate) retry: Option<Policy>,
    pub(crate) returned: Option<Template>,
}

/// The fields from `steps` to `try`.
pub(crate) struct BlockParts {
    pub(crate) steps: Option<StepList>,
    pub(crate) switch: Option<Arms>,
    pub(crate) tried: Option<Body>,
}

// Written, and not derived: each is one call wherever parts are let go.
impl Drop for CallParts {
    fn drop(self) {
        let CallParts {
            args: _,
            assign: _,
            call: _,
            condition: _,
        } = self;
    }
}

impl Drop for LoopParts {
    fn drop(self) {
        let LoopParts {
            except: _,
            repeated: _,
            next: _,
            parallel: _,
        } = self;
    }
}

impl Drop for ValueParts {
    fn drop(self) {
        let ValueParts {
            raised: _,
            result: _,
            retry: _,
            returned: _,
        } = self;
    }
}

impl Drop for BlockParts {
    fn drop(self) {
        let BlockParts {
            steps: _,
            switch: _,
            tried: _,
        } = self;
    }
}

/// A condition where there is one, what is done, and where it goes on.
pub(crate) type Parted = (Option<Template>, Body, Option<Text>);

/// An error's handler and the next step, where they are there, and the loop or parallel step.
type Looped = (Option<Except>, Option<Text>, Option<Body>);

/// Where a result goes and how often is tried, where they are there, and what is raised or returned.
type Valued = (Option<Text>, Option<Policy>, Option<Body>);

impl Parts {
    /// The first form that is there, and what every form may have.
    pub(crate) fn body(self, alloc: Global) -> Result<Parted, Stop>
        ensures { MatchResult result (λ r. (r.0 ≡ self.calls.condition)
            × (body_view r.1 ≡ body_of self)
            × (r.2 ≡ self.loops.next)) (λ s. s ≡ stop.OutOfMemory) }
    {
        let Parts {
            calls,
            loops,
            values,
            blocks,
        } = self;
        let (stored, retry, valued) = values.body();
        let (except, next, looped) = loops.body();
        let (condition, called) = calls.body(stored);
        let other = blocks.body(alloc, retry, except)?;
        let body = first(called, first(looped, first(valued, other)));
        Ok((condition, body, next))
    }
}

impl CallParts {
    /// The condition, and the assignments or the call.
    fn body(self, stored: Option<Text>) -> (Option<Template>, Option<Body>)
        ensures condition { result.0 ≡ self.condition }
        ensures form { option_map body_view result.1 ≡ call_form self stored }
    {
        let CallParts {
            args,
            assign,
            call,
            condition,
        } = self;
        let form = if let Some(entries) = assign {
            Some(Body::Assign(entries))
        } else if let Some(name) = call {
            Some(Body::Call(CallBody {
                name,
                args,
                result: stored,
            }))
        } else {
            None
        };
        (condition, form)
    }
}

impl LoopParts {
    /// The handler, the next step, and the loop or the parallel step.
    fn body(self) -> Looped
        ensures except { result.0 ≡ self.except }
        ensures next { result.1 ≡ self.next }
        ensures form { option_map body_view result.2 ≡ loop_form self }
    {
        let LoopParts {
            except,
            repeated,
            next,
            parallel,
        } = self;
        let form = if let Some(repeated) = repeated {
            Some(Body::For(repeated))
        } else if let Some(parallel) = parallel {
            Some(Body::Parallel(parallel))
        } else {
            None
        };
        (except, next, form)
    }
}

impl ValueParts {
    /// The name for the result, the policy, and what is raised or returned.
    fn body(self) -> Valued
        ensures name { result.0 ≡ self.result }
        ensures retry { result.1 ≡ self.retry }
        ensures form { option_map body_view result.2 ≡ value_form self }
    {
        let ValueParts {
            raised,
            result,
            retry,
            returned,
        } = self;
        let form = if let Some(error) = raised {
            Some(Body::Raise(error))
        } else if let Some(value) = returned {
            Some(Body::Return(value))
        } else {
            None
        };
        (result, retry, form)
    }
}

impl BlockParts {
    /// The steps, the arms or what is tried, or else nothing.
    fn body(
        self,
        alloc: Global,
        policy: Option<Policy>,
        except: Option<Except>,
    ) -> Result<Body, Stop>
        ensures { MatchResult result (λ b. body_view b ≡ block_form self policy except) (λ s. s
            ≡ stop.OutOfMemory) }
    {
        let BlockParts {
            steps,
            switch,
            tried,
        } = self;
        if let Some(steps) = steps {
            Ok(Body::Block(steps))
        } else if let Some(arms) = switch {
            Ok(Body::Switch(arms))
        } else {
            try_body(alloc, tried, policy, except)
        }
    }
}

/// A form where it is there, or else another.
fn first(form: Option<Body>, other: Body) -> Body
    ensures { body_view result ≡ first_of (option_map body_view form) (body_view other) }
{
    match form {
        Some(body) => body,
        None => other,
    }
}

/// A `try`, or nothing where there is no body to try.
fn try_body(
    alloc: Global,
    tried: Option<Body>,
    policy: Option<Policy>,
    except: Option<Except>,
) -> Result<Body, Stop>
    ensures { MatchResult result (λ b. body_view b ≡ try_form tried policy except) (λ s. s
        ≡ stop.OutOfMemory) }
{
    let Some(tried) = tried else {
        return Ok(Body::Nothing);
    };
    match Box::new(alloc, tried) {
        Ok(body) => Ok(Body::Try(TryBody {
            body,
            policy,
            except,
        })),
        Err(failed) => {
            drop(failed);
            Err(Stop::OutOfMemory)
        }
    }
}

/// What stands in the fields from `args` to `condition`.
pub(crate) fn call_parts(alloc: Global, fields: &TreeMap) -> Result<CallParts, Stop>
    ensures { MatchResult result (λ p. AreSoundAnd (row (pairs_of fields.now) call_part_keys)
        (AreCallParts p (pairs_of fields.now)))
        (λ stop. FailsAmong (row (pairs_of fields.now) call_part_keys) stop) }
{
    Ok(CallParts {
        args: arguments_at(alloc, fields, "args")?,
        assign: entries_at(alloc, fields, "assign")?,
        call: text_at(alloc, fields, "call")?,
        condition: value_at(alloc, fields, "condition")?,
    })
}

/// What stands in the fields from `raise` to `return`.
pub(crate) fn value_parts(alloc: Global, fields: &TreeMap) -> Result<ValueParts, Stop>
    ensures { MatchResult result (λ p. AreSoundAnd (row (pairs_of fields.now) value_part_keys)
        (AreValueParts p (pairs_of fields.now)))
        (λ stop. FailsAmong (row (pairs_of fields.now) value_part_keys) stop) }
{
    Ok(ValueParts {
        raised: value_at(alloc, fields, "raise")?,
        result: name_at(alloc, fields, "result")?,
        retry: policy_at(alloc, fields, "retry")?,
        returned: value_at(alloc, fields, "return")?,
    })
}
