//! What a node tells while it stands in a run.
ghost use Rattle.std.specs.Prelude.{◌≡◌, Some};
ghost use Rattle.sm_node.specs.Asking.{Tells};

use crate::held::NodeHandle;
use crate::opaque::SmNode;
use crate::told::NodeReply;
use gen_types::GeneralNo;
use std::alloc::Global;

/// What a node is asked. The answer is a number: 1 for yes and 0 for no.
#[derive(Clone, Copy)]
pub enum Question {
    /// The number of the round that began last, 0 before the first.
    Round,
    /// Whether frames go to this general and come from it now.
    Awaits(GeneralNo),
    /// Whether a frame from this general is still awaited.
    Lacks(GeneralNo),
    /// Whether a round is open or half ended.
    MayEnd,
    /// Whether the last round has ended.
    IsOver,
}

impl NodeHandle {
    /// Tells the answer of the node that is held.
    fn tell(&self, question: Question, told: &mut u32) -> NodeReply
        ensures { Tells question (Some self.now) told.new result }
    {
        *told = 0;
        match self {
            NodeHandle::Running(node) => {
                *told = match question {
                    Question::Round => u32::from(node.round()),
                    Question::Awaits(general) => u32::from(node.awaits(general)),
                    Question::Lacks(general) => u32::from(node.is_awaited(general)),
                    Question::MayEnd => u32::from(node.may_end()),
                    Question::IsOver => u32::from(node.is_over()),
                };
                NodeReply::Done
            }
            NodeHandle::Empty | NodeHandle::Keys(_) | NodeHandle::Ended(_) => NodeReply::Misuse,
        }
    }
}

/// Asks a node a question, and tells the answer.
pub(crate) fn ask(alloc: Global, node: &mut SmNode, question: Question, told: &mut u32) -> NodeReply
    ensures same { node.new.held ≡ node.old.held }
    ensures tells { Tells question node.old.held told.new result }
{
    *told = 0;
    node.with_held(alloc, &mut |held| held.tell(question, told))
}
