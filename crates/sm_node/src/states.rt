//! Records of the states of a secret, for a caller that keeps them.
ghost use Rattle.sm_node.specs.States.{IsRecord};

use gen_identity::NumberedState;
use gen_identity::sizes::STATE_BYTES;

/// Returns the state whose record the bytes are.
pub(crate) fn state_of(bytes: &[u8; STATE_BYTES]) -> NumberedState
    ensures { IsRecord bytes.now result }
{
    let state = NumberedState::from_bytes(bytes);
    let _number = state.number();
    let _system = *state.system();
    state
}
