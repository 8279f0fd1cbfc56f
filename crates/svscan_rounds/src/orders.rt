//! What svscan's own control bytes ask for.
ghost use Rattle.std.specs.Prelude.{◌≡◌};
ghost use Rattle.svscan_rounds.specs.Orders.{order_of};

/// What svscan does next.
#[derive(Clone, Copy, Debug, PartialEq, Eq)]
pub enum Order {
    /// A round.
    Round,
    /// It ends all services, in order, and then exits.
    End,
    /// It exits, and leaves all services running.
    Leave,
}

/// Returns what one of svscan's own control bytes asks for. Most ask for nothing.
pub(crate) fn order_of(byte: u8) -> Option<Order>
    ensures { result ≡ order_of byte }
{
    match byte {
        b'a' => Some(Order::Round),
        b'x' => Some(Order::End),
        b'q' => Some(Order::Leave),
        _ => None,
    }
}
