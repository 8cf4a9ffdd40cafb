// What is promised of orders as text, each the contract of a function that does nothing else. It speaks of the definitions that the contracts of `read_order` and `put_order` cite.
ghost use Rattle.text.specs.Promise.{OrdersBack, OrdersTold};

// An order whose numbers have at most 18 figures, as it is written, is read as it was.
pub fn written_orders_are_read()
    ensures { OrdersBack }
{}

// Whatever is read as an order is its word and its numbers, no less and no more.
pub fn read_orders_are_said()
    ensures { OrdersTold }
{}
