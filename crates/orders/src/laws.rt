// What holds of orders after any calls.
ghost use Rattle.orders.specs.Laws.{BooksAreSound};

// The template of an order reads without fault, and its texts can be quoted.
pub fn books_are_sound()
    ensures { BooksAreSound }
{}
