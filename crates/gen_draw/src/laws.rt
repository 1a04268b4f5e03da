//! What pictures say of logs, as a law.
ghost use Rattle.gen_draw.specs.Drawing.{MessagesStandWhereLogsSay};

/// A message is drawn as one that its sender's log has (`Both` or `Sender`) if and only if a shown log of the sender
/// says that it was sent. Its line is then solid if a shown log of its receiver says that it was received (`Both`), and
/// else dashed. A message is drawn as `Receiver`, with a dashed line, if and only if a shown log of the receiver says
/// that it was received and no shown log of the sender says that it was sent.
///
/// This is a law: a function with an empty body, whose caller knows what it ensures.
pub fn messages_stand_where_logs_say()
    ensures { MessagesStandWhereLogsSay }
{}
