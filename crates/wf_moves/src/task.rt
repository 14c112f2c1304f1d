// Tasks.
ghost use Rattle.std.specs.Prelude.{◌≡◌, ◌≤◌, IfErr, IfOk, IfSome, List, OnOk, Some, false, is_some, option_map, true};
ghost use Rattle.wf_frames.specs.Fits.{Fits};
ghost use Rattle.wf_frames.specs.Foreseen.{Foresees};
ghost use Rattle.wf_frames.specs.Frames.{inner};
ghost use Rattle.wf_frames.specs.Owned.{Around, control_of, local_of};
ghost use Rattle.wf_frames.specs.Sights.{Sees};
ghost use Rattle.wf_frames.specs.Stands.{Stands};
ghost use Rattle.wf_frames.specs.Turns.{Agrees};
ghost use Rattle.wf_model.specs.Local.{Moved, Scene};
ghost use Rattle.wf_frames.specs.Built.{AreTargets, IsTableOf};
ghost use Rattle.wf_moves.specs.Moved.{IsLeft, IsMove, IsSettled};
ghost use Rattle.wf_moves.specs.Tasks.{told_by, told_in};
ghost use Rattle.wf_model.specs.Spots.{part_at};
ghost use Rattle.wf_value.specs.Data.{depth};
ghost use Rattle.wf_value.specs.Plain.{plain};

use crate::back::give;
use crate::finish::{Awaits, Done, End, Turned, Went, goes, settle, turns};
use crate::judging::try_again;
use crate::leading::{Led, lead};
use crate::logging::Behind;
use crate::moves::advance;
use crate::sending::{Sending, Sent};
use crate::start::{first_layer, params};
use crate::wait::Wait;
use std::alloc::Global;
use wf_ast::boxed;
use wf_frames::{Facts, Fork, Frame, Frames, Kind, Target, Wants, next_kind};
use wf_model::Node;
use wf_scope::Scopes;
use wf_sys_ask::Logged;
use wf_value::{OutOfMemory, Value};

/// What few moves have done.
#[derive(Drop)]
pub enum Told {
    /// The task has ended, and its layers with it but for the first.
    Ended(End),
    /// It has made a request, and waits for the answer.
    Sent(Box<Sent>),
    /// It has logged a value, and goes on, or waits for its next try, or has ended.
    Logged(Box<Logged>, Behind),
    /// It stands in a parallel step, of which no branch has begun.
    Forked(Fork),
}

/// What a move has done. Of nearly all there is nothing to tell, so the rest stands in a box: what is handed on is small.
#[derive(Drop)]
pub enum Move {
    /// The task goes on, or waits until a moment.
    Went,
    Told(Box<Told>),
}

/// A move has done one of the few. It stands apart from what every move runs.
#[cold]
#[inline(never)]
fn tell(alloc: Global, by: Told) -> Result<Move, OutOfMemory>
    ensures { IfOk result (λ d. told_in d ≡ Some by) }
{
    Ok(Move::Told(boxed(alloc, by)?))
}

/// The move of a task that stands so behind it.
fn move_by(alloc: Global, behind: Behind) -> Result<Move, OutOfMemory>
    ensures { IfOk result (λ d. told_in d ≡ told_by behind) }
{
    match behind {
        Behind::Goes => Ok(Move::Went),
        Behind::Ended(end) => tell(alloc, Told::Ended(end)),
    }
}

/// A task: what it has still to do, the layers of its own, and what it waits for.
#[derive(Drop)]
pub struct Task {
    pub(crate) alloc: Global,
    pub(crate) frames: Frames,
    pub(crate) wait: Wait,
}

impl Task {
    ghost use Rattle.wf_ast.specs.Tree.{Program};
    ghost use Rattle.wf_frames.specs.Frames.{result_of};
    ghost use Rattle.wf_model.specs.Kinds.{next_kind};
    ghost use Rattle.wf_model.specs.Leave.{gives};
    ghost use Rattle.wf_frames.specs.Kinds.{AreWants, kind_view};
    ghost use Rattle.wf_model.specs.Move.{due, resumed};
    ghost use Rattle.wf_moves.specs.Requests.{Reaches};
    ghost use Rattle.wf_moves.specs.Stepped.{stepped};
    ghost use Rattle.wf_moves.specs.Tasks.{IsAwaited, IsAwaitedLeft, IsBehind, IsFirst, IsFlow, MovesSo, Stays, StaysBehind, first, has_ended, is_sent};
    ghost use Rattle.wf_moves.specs.Waits.{CanGoOn, answer_view, call_in, is_awake_in, is_call_at, is_joining, moment_in, result_in, standing_at, task_local};
    ghost use Rattle.wf_model.specs.Config.{Item};
    ghost use Rattle.wf_moves.specs.Branches.{joins_with};

    /// The first task, awake, which stands before the steps of a workflow: that of the node with this number. Its first layer is made, and holds
    /// the argument where the workflow has a parameter. Without memory, or where the argument passes the limit on variables, there is no
    /// task, and the layers are only to be let go.
    pub fn new(
        alloc: Global,
        nodes: &[Node],
        flow: u32,
        argument: Value,
        scopes: &mut Scopes,
    ) -> Result<Task, OutOfMemory>
        ghost around: { Around }
        requires tells { IsTableOf around.spots nodes.now }
        requires start { IsFlow nodes.now flow }
        requires first { IsFirst around scopes.old }
        ensures begins { IfOk result (λ t. first (part_at around.spots flow) (plain argument)
            ≡ task_local around t scopes.new) }
        ensures awake { IfOk result (λ t. is_awake_in t.wait ≡ true) }
        ensures stands { IfOk result (λ t. Stands around nodes.now t.frames scopes.new) }
        ensures settled { IfOk result (λ t. IsSettled nodes.now (inner t.frames)) }
        ensures next { IfOk result (λ t. Foresees nodes.now t.frames) }
    {
        let layer = first_layer(scopes, params(nodes, flow), argument)?;
        let mut frames = Frames::new(alloc, layer);
        frames.push(Frame::Do(flow, 0))?;
        settle(&mut frames, nodes, scopes);
        Ok(Task {
            alloc,
            frames,
            wait: Wait::Awake,
        })
    }

    /// Whether it has nothing left to do.
    pub fn is_ended(&self) -> bool
        ensures { result ≡ has_ended (inner self.now.frames) }
    {
        match self.frames.top() {
            Some(_) => false,
            None => true,
        }
    }

    /// Which event the next move wants. `wants` has what each node wants.
    #[inline(always)]
    pub fn next_kind(&self, nodes: &[Node], wants: &[Wants]) -> Kind
        ghost around: { Around }
        requires tells { IsTableOf around.spots nodes.now }
        requires fits { Fits around.spots nodes.now (inner self.now.frames) }
        requires going { CanGoOn nodes.now self.now }
        requires awake { is_awake_in self.now.wait ≡ true }
        ensures { (p : Program) → AreWants p around.spots nodes.now wants.now
            → kind_view result ≡ next_kind p (control_of around self.now.frames) }
    {
        // it was looked up when the task was settled
        let _ = nodes;
        next_kind(wants, self.frames.next())
    }

    /// The number of the call for whose answer it waits.
    pub fn call(&self) -> Option<u64>
        ensures { result ≡ call_in self.now.wait }
    {
        match self.wait {
            Wait::Awake | Wait::Sleep { .. } | Wait::Delay { .. } | Wait::Joining(_) => None,
            Wait::Calling { call, .. } => Some(call),
        }
    }

    /// The moment until which it sleeps, or waits for its next try, in milliseconds since 1970.
    pub fn due(&self) -> Option<u64>
        ensures { result ≡ moment_in self.now.wait }
    {
        match self.wait {
            Wait::Awake | Wait::Calling { .. } | Wait::Joining(_) => None,
            Wait::Sleep { due, .. } | Wait::Delay { due } => Some(due),
        }
    }

    /// Whether it waits for nothing.
    pub fn is_awake(&self) -> bool
        ensures { result ≡ is_awake_in self.now.wait }
    {
        match self.wait {
            Wait::Awake => true,
            Wait::Sleep { .. } | Wait::Delay { .. } | Wait::Calling { .. } => false,
            Wait::Joining(_) => false,
        }
    }

    /// The next move, or the request that is next. `targets` has what a call names at the call's own number, and the workflow of a
    /// predicate at that of its `try`. Without memory the task and the layers are left in any state, and are only to be let go.
    #[inline(always)]
    pub fn advance(
        &mut self,
        nodes: &[Node],
        targets: &[Target],
        scopes: &mut Scopes,
        facts: &Facts,
        sending: &Sending,
    ) -> Result<Move, OutOfMemory>
        ghost around: { Around }
        requires tells { IsTableOf around.spots nodes.now }
        requires targets { AreTargets around.flows around.spots nodes.now targets.now }
        requires stands { Stands around nodes.now self.old.frames scopes.old }
        requires going { CanGoOn nodes.now self.old }
        requires awake { is_awake_in self.old.wait ≡ true }
        ensures moved { IfOk result (λ m. (s : Scene) → Sees s facts.entry.now
            → Reaches s sending.now → Agrees s around
            → MovesSo (stepped s (task_local around self.old scopes.old)) m
            (task_local around self.new scopes.new)) }
        ensures stands { OnOk result (Stands around nodes.now self.new.frames scopes.new) }
        ensures left { IfOk result (λ m. Stays nodes.now m self.new) }
    {
        let done = advance(
            self.alloc,
            nodes,
            targets,
            &mut self.frames,
            scopes,
            facts,
            sending,
        )?;
        match done {
            // what most moves give leads nowhere else
            Done::Goes => Ok(Move::Went),
            Done::Ends => self.follow(nodes, targets, scopes, facts, Went::Ends),
            Done::Turned(turned) => {
                self.follow(nodes, targets, scopes, facts, Went::Turned(turned))
            }
            Done::Awaits(awaits) => {
                let awaits = Box::into_inner(awaits);
                self.told(nodes, targets, scopes, facts, awaits)
            }
        }
    }

    /// It waits behind a move, or has logged a value.
    #[cold]
    #[inline(never)]
    fn told(
        &mut self,
        nodes: &[Node],
        targets: &[Target],
        scopes: &mut Scopes,
        facts: &Facts,
        awaits: Awaits,
    ) -> Result<Move, OutOfMemory>
        ghost around: { Around }
        requires tells { IsTableOf around.spots nodes.now }
        requires targets { AreTargets around.flows around.spots nodes.now targets.now }
        requires stands { Stands around nodes.now self.old.frames scopes.old }
        requires left { IsAwaitedLeft nodes.now awaits self.old.frames }
        requires awake { is_awake_in self.old.wait ≡ true }
        ensures moved { IfOk result (λ d. (s : Scene) (m : Moved) → Sees s facts.entry.now
            → Agrees s around
            → IsAwaited around s m awaits (local_of around self.old.frames scopes.old)
            → MovesSo m d (task_local around self.new scopes.new)) }
        ensures stands { OnOk result (Stands around nodes.now self.new.frames scopes.new) }
        ensures left { IfOk result (λ d. Stays nodes.now d self.new) }
    {
        match awaits {
            Awaits::Waits(wait) => {
                self.wait = wait;
                Ok(Move::Went)
            }
            Awaits::Sent(sent, wait) => {
                self.wait = wait;
                tell(self.alloc, Told::Sent(sent))
            }
            Awaits::Logged(entry, went) => {
                let behind = self.stand(nodes, targets, scopes, facts, went)?;
                tell(self.alloc, Told::Logged(entry, behind))
            }
            Awaits::Forks(fork, joining) => {
                self.wait = Wait::Joining(joining);
                tell(self.alloc, Told::Forked(fork))
            }
        }
    }

    /// It goes on where it has waited for an answer: with the answer's value, or with the error that it raises. Without memory the task
    /// and the layers are left in any state, and are only to be let go.
    pub fn go_on(
        &mut self,
        nodes: &[Node],
        targets: &[Target],
        scopes: &mut Scopes,
        with: Result<Value, Value>,
        facts: &Facts,
    ) -> Result<Move, OutOfMemory>
        ghost around: { Around }
        requires tells { IsTableOf around.spots nodes.now }
        requires targets { AreTargets around.flows around.spots nodes.now targets.now }
        requires stands { Stands around nodes.now self.old.frames scopes.old }
        requires going { CanGoOn nodes.now self.old }
        requires waits { is_some (call_in self.old.wait) ≡ true }
        requires shallow { IfErr with (λ e. depth (plain e) ≤ 100) }
        ensures moved { IfOk result (λ m. (s : Scene) → Sees s facts.entry.now → Agrees s around
            → MovesSo (resumed s (result_in around self.old.wait) (answer_view with)
            (task_local around self.old scopes.old)) m (task_local around self.new scopes.new)) }
        ensures stands { OnOk result (Stands around nodes.now self.new.frames scopes.new) }
        ensures left { IfOk result (λ m. Stays nodes.now m self.new) }
        ensures nothing_sent { IfOk result (λ m. is_sent m ≡ false) }
    {
        let Wait::Calling { node, .. } = self.wait else {
            unreachable!()
        };
        self.wait = Wait::Awake;
        match with {
            Ok(value) => self.gives(nodes, targets, scopes, facts, node, value),
            Err(error) => {
                let went = turns(self.alloc, Turned::Raises(error))?;
                self.follow(nodes, targets, scopes, facts, went)
            }
        }
    }

    /// It goes on behind the parallel step in which it stands, whose branches have all ended, or with the error that they have left. Which
    /// errors they have left the table tells, so it does so whatever its control says of them. Without memory the task and the layers are
    /// left in any state, and are only to be let go.
    pub fn join(
        &mut self,
        nodes: &[Node],
        targets: &[Target],
        scopes: &mut Scopes,
        error: Option<Value>,
        facts: &Facts,
    ) -> Result<Move, OutOfMemory>
        ghost around: { Around }
        requires tells { IsTableOf around.spots nodes.now }
        requires targets { AreTargets around.flows around.spots nodes.now targets.now }
        requires stands { Stands around nodes.now self.old.frames scopes.old }
        requires joins { is_joining self.old.wait ≡ true }
        requires shallow { IfSome error (λ e. depth (plain e) ≤ 100) }
        ensures moved { IfOk result (λ m. (s : Scene) (k : List Item) → Sees s facts.entry.now
            → Agrees s around → MovesSo (joins_with s (option_map plain error)
            (control_of around self.old.frames) (standing_at around self.old scopes.old k)) m
            (task_local around self.new scopes.new)) }
        ensures stands { OnOk result (Stands around nodes.now self.new.frames scopes.new) }
        ensures left { IfOk result (λ m. Stays nodes.now m self.new) }
        ensures nothing_sent { IfOk result (λ m. is_sent m ≡ false) }
    {
        self.wait = Wait::Awake;
        match error {
            None => {
                let went = goes(&mut self.frames, nodes, scopes);
                self.follow(nodes, targets, scopes, facts, went)
            }
            Some(error) => {
                let went = turns(self.alloc, Turned::Raises(error))?;
                self.follow(nodes, targets, scopes, facts, went)
            }
        }
    }

    /// It goes on at the moment until which it has waited: a sleep ends, or the body of its `try` is tried again. Without memory the task
    /// and the layers are left in any state, and are only to be let go.
    pub fn wake(
        &mut self,
        nodes: &[Node],
        targets: &[Target],
        scopes: &mut Scopes,
        facts: &Facts,
    ) -> Result<Move, OutOfMemory>
        ghost around: { Around }
        requires tells { IsTableOf around.spots nodes.now }
        requires targets { AreTargets around.flows around.spots nodes.now targets.now }
        requires stands { Stands around nodes.now self.old.frames scopes.old }
        requires going { CanGoOn nodes.now self.old }
        requires waits { is_some (moment_in self.old.wait) ≡ true }
        ensures moved { IfOk result (λ m. (s : Scene) → Sees s facts.entry.now → Agrees s around
            → MovesSo (due s (task_local around self.old scopes.old)) m
            (task_local around self.new scopes.new)) }
        ensures stands { OnOk result (Stands around nodes.now self.new.frames scopes.new) }
        ensures left { IfOk result (λ m. Stays nodes.now m self.new) }
        ensures nothing_sent { IfOk result (λ m. is_sent m ≡ false) }
    {
        match self.wait {
            Wait::Sleep { node, .. } => {
                self.wait = Wait::Awake;
                self.gives(nodes, targets, scopes, facts, node, Value::Null)
            }
            Wait::Delay { .. } => {
                self.wait = Wait::Awake;
                let went = try_again(nodes, &mut self.frames, scopes)?;
                self.follow(nodes, targets, scopes, facts, went)
            }
            Wait::Awake | Wait::Calling { .. } | Wait::Joining(_) => unreachable!(),
        }
    }

    /// A value goes into the variable that a node's call names.
    fn gives(
        &mut self,
        nodes: &[Node],
        targets: &[Target],
        scopes: &mut Scopes,
        facts: &Facts,
        node: u32,
        value: Value,
    ) -> Result<Move, OutOfMemory>
        ghost around: { Around }
        requires tells { IsTableOf around.spots nodes.now }
        requires targets { AreTargets around.flows around.spots nodes.now targets.now }
        requires stands { Stands around nodes.now self.old.frames scopes.old }
        requires call { is_call_at nodes.now node ≡ true }
        requires awake { is_awake_in self.old.wait ≡ true }
        ensures moved { IfOk result (λ m. (s : Scene) → Sees s facts.entry.now → Agrees s around
            → MovesSo (gives s (result_of around.spots (Some node)) (plain value)
            (control_of around self.old.frames) (task_local around self.old scopes.old)) m
            (task_local around self.new scopes.new)) }
        ensures stands { OnOk result (Stands around nodes.now self.new.frames scopes.new) }
        ensures left { IfOk result (λ m. Stays nodes.now m self.new) }
        ensures nothing_sent { IfOk result (λ m. is_sent m ≡ false) }
    {
        let went = give(
            self.alloc,
            nodes,
            Some(node),
            value,
            &mut self.frames,
            scopes,
        )?;
        self.follow(nodes, targets, scopes, facts, went)
    }

    /// Where a move leads: its error goes outward, and so does what a predicate has said.
    #[inline(always)]
    fn follow(
        &mut self,
        nodes: &[Node],
        targets: &[Target],
        scopes: &mut Scopes,
        facts: &Facts,
        went: Went,
    ) -> Result<Move, OutOfMemory>
        ghost around: { Around }
        requires tells { IsTableOf around.spots nodes.now }
        requires targets { AreTargets around.flows around.spots nodes.now targets.now }
        requires stands { Stands around nodes.now self.old.frames scopes.old }
        requires left { IsLeft nodes.now went self.old.frames }
        requires awake { is_awake_in self.old.wait ≡ true }
        ensures moved { IfOk result (λ d. (s : Scene) (m : Moved) → Sees s facts.entry.now
            → Agrees s around → IsMove s m went (task_local around self.old scopes.old)
            → MovesSo m d (task_local around self.new scopes.new)) }
        ensures stands { OnOk result (Stands around nodes.now self.new.frames scopes.new) }
        ensures left { IfOk result (λ d. Stays nodes.now d self.new) }
        ensures nothing_sent { IfOk result (λ d. is_sent d ≡ false) }
    {
        match went {
            // what most moves give leads nowhere else
            Went::Goes => Ok(Move::Went),
            went => {
                let behind = self.stand(nodes, targets, scopes, facts, went)?;
                move_by(self.alloc, behind)
            }
        }
    }

    /// How it stands where a move leads: its error goes outward, and so does what a predicate has said.
    fn stand(
        &mut self,
        nodes: &[Node],
        targets: &[Target],
        scopes: &mut Scopes,
        facts: &Facts,
        went: Went,
    ) -> Result<Behind, OutOfMemory>
        ghost around: { Around }
        requires tells { IsTableOf around.spots nodes.now }
        requires targets { AreTargets around.flows around.spots nodes.now targets.now }
        requires stands { Stands around nodes.now self.old.frames scopes.old }
        requires left { IsLeft nodes.now went self.old.frames }
        requires awake { is_awake_in self.old.wait ≡ true }
        ensures moved { IfOk result (λ b. (s : Scene) (m : Moved) → Sees s facts.entry.now
            → Agrees s around → IsMove s m went (task_local around self.old scopes.old)
            → IsBehind m b (task_local around self.new scopes.new)) }
        ensures stands { OnOk result (Stands around nodes.now self.new.frames scopes.new) }
        ensures left { IfOk result (λ b. StaysBehind nodes.now b self.new) }
    {
        let led = lead(
            self.alloc,
            nodes,
            targets,
            facts.last,
            went,
            &mut self.frames,
            scopes,
        )?;
        match led {
            Led::Goes => Ok(Behind::Goes),
            Led::Ended(end) => Ok(Behind::Ended(end)),
            Led::Waits(wait) => {
                self.wait = wait;
                Ok(Behind::Goes)
            }
        }
    }
}
