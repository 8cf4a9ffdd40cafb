// What is promised of a whole run, each the contract of a function that does nothing else. It speaks of the definitions that the contracts of `feed` and `run` cite.
ghost use Rattle.session.specs.Promise.{Ended, NotWhollyRead, NumbersTooLate, OrdersKeep};

// Nothing is answered from a file that was not wholly read: behind a line of numbers that cannot be read, or that comes after a question, only its refusal is written.
pub fn nothing_from_half_a_file()
    ensures { Ended × NotWhollyRead × NumbersTooLate }
{}

// No order changes the file, and only a line that is taken changes the line in force.
pub fn refused_orders_change_nothing()
    ensures { OrdersKeep }
{}
