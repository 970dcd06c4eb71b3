//! Each function's contract is a law of the definitions. None of them runs anything.
ghost use Rattle.rg_reload.specs.Order.{OrderIsClustered};

/// Rows in order, beside the clustering order of a table.
pub fn order_law()
    ensures { OrderIsClustered }
{}
