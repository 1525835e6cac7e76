//! Laws over the definitions alone.
ghost use Rattle.tb_faults.specs.Order.{FirstIsOne};

/// Of several reasons just one stands first, or there is none.
pub fn first_is_one()
    ensures { FirstIsOne }
{}
