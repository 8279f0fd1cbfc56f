//! What the turns of one connection do together.
ghost use Rattle.svc_door.specs.Connection.{TurnsPostTheFirstBytes};

/// States a law of connections, for any bytes of a connection and any refusals meanwhile. The bytes that were posted in
/// all its turns, followed by those that are kept, are the first that it gave. They are in order, each once, and at
/// most 4096. A part at the door keeps this of its connection from turn to turn.
pub fn turns_post_the_first_bytes()
    ensures { TurnsPostTheFirstBytes }
{}
