//! Laws of the definitions: each is the contract of a function that does nothing.
ghost use Rattle.sampler.specs.Control.{OrdersAreAnsweredInOrder};
ghost use Rattle.sampler.specs.OneMore.{DueOfOneMore, ItemsOfOneMore};

/// The due pairs of an event come behind those of the history before it.
pub fn due_of_one_more()
    ensures { DueOfOneMore }
{}

/// And so do the items that it sends, whatever was decided of its pairs.
pub fn items_of_one_more()
    ensures { ItemsOfOneMore }
{}

/// If nothing but samplers takes from a ring of orders, those that were answered are, in order,
/// a prefix of those that were sent; behind them come those that are left.
pub fn orders_are_answered_in_order()
    ensures { OrdersAreAnsweredInOrder }
{}
