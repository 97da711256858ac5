//! Who stands above a task in an order.
ghost use Rattle.std.specs.Prelude.{◌≡◌};
ghost use Rattle.ceiling_kernel.specs.Bounds.{after_of};

/// The tasks that stand above one in an order, lowest first; none where the order hasn't it.
pub fn above(order: &[usize], task: usize) -> &[usize]
    ensures { result.now ≡ after_of order.now task }
{
    let mut rest = order;
    while let Some((lowest, above)) = rest.split_first() {
        if *lowest == task {
            return above;
        }
        rest = above;
    }
    rest
}
