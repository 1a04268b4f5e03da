//! Which messages a picture draws.
ghost use Rattle.std.specs.Prelude.{◌≡◌, IfOk};
ghost use Rattle.gen_draw.specs.Telling.{arrows_between, tells};

use crate::arrow::{Arrow, ToldBy};
use gen_net::Message;
use std::alloc::{AllocError, Global};

/// Returns whether a message is among others: with its sender, receiver, order and path.
fn tells(messages: &[Message], message: &Message) -> bool
    ensures { result ≡ tells messages.now message.now }
{
    messages.iter().any(|other| {
        message.from == other.from
            && message.to == other.to
            && message.order == other.order
            && message.path == other.path
    })
}

/// Returns the arrows of the messages that were sent, and then of those that were received alone. Both logs have a
/// message that was sent if it is among the received messages, else the sender's alone.
pub fn arrows_between(
    alloc: Global,
    sent: &[Message],
    received: &[Message],
) -> Result<Vec<Arrow>, AllocError>
    ensures { IfOk result (λ arrows. arrows.items ≡ arrows_between sent.now received.now) }
{
    let mut arrows = Vec::new(alloc);
    for message in sent {
        let told = if tells(received, message) {
            ToldBy::Both
        } else {
            ToldBy::Sender
        };
        arrows.push(Arrow {
            message: *message,
            told,
        })?;
    }
    for message in received {
        if !tells(sent, message) {
            arrows.push(Arrow {
                message: *message,
                told: ToldBy::Receiver,
            })?;
        }
    }
    Ok(arrows)
}
