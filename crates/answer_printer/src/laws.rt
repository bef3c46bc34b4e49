//! Laws about the definitions of this crate. A law is a function with an empty body; its contract
//! is the theorem.
ghost use Rattle.answer_printer.specs.WorkedTexts.{TextByType, TextByValue, TextInBraces, TextOfOne};

/// Proves that four plans over the sample release have the texts that `WorkedTexts.antt` shows.
pub fn worked_texts_hold()
    ensures by_value { TextByValue }
    ensures by_type { TextByType }
    ensures in_braces { TextInBraces }
    ensures of_one { TextOfOne }
{}
