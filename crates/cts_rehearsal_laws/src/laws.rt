// Laws of the definitions. Each function does nothing: its contract is the law.
ghost use Rattle.cts_rehearsal_laws.specs.Orders.{OrdersAskFor, OrdersRequest};
ghost use Rattle.cts_rehearsal_laws.specs.Sent.{OrdersAreChecked, OrdersAreSent, RefusedOrdersLeaveNothing, WritesAreEnabled};

/// The request by which a client of a rehearsal sends a command asks to send it with all checks, and its text is the command of
/// the demo with the duration.
pub fn orders_ask_for_commands()
    ensures asks { OrdersAskFor }
    ensures request { OrdersRequest }
{}

/// Over each site with the demo's command, no check refuses a duration of at most 10. Where the first interface is connected and
/// there is room, the command is sent, and the write that follows is enabled. A duration of 11 is refused, and leaves the history as it was.
pub fn orders_are_written()
    ensures checked { OrdersAreChecked }
    ensures sent { OrdersAreSent }
    ensures written { WritesAreEnabled }
    ensures refused { RefusedOrdersLeaveNothing }
{}
