// How deep a balanced rope may be.
ghost use Rattle.shapes.specs.Balance.{LeastPower};

// The least number whose power of two is at least a size.
pub fn least_power(size: usize) -> usize
    ensures { LeastPower size result }
{
    match size {
        0 | 1 => 0,
        _ => (size - 1).ilog2() as usize + 1,
    }
}
