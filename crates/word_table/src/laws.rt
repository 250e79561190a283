//! What the rule of the words says of pins.

ghost use Rattle.word_table.specs.Laws.{PinsHoldWords};

/// A law: whenever the rule holds, that is between any two steps, the word of each pin that is out is live, of the pin's
/// generation, and has at least one pin. A pin that was dropped is out for good.
pub fn pins_hold_words()
    ensures { PinsHoldWords }
{}
