// The causes of a refusal, in their order.
ghost use Rattle.cts_reader.specs.Causes.{TellsTheFirst};

/// The first cause of this order that holds.
pub fn first_that_holds<C: Copy, F: Fn(C) -> bool>(order: &[C], holds: F) -> Option<C>
    requires { F.IsAlwaysCallable holds }
    ensures { TellsTheFirst (F.post holds) order.now result }
{
    for cause in order {
        if holds(*cause) {
            return Some(*cause);
        }
    }
    None
}
