//! The rules of answer texts, each by its number.
use text_lines::Rule;

/// A text that does not begin with a header.
pub const NO_HEADER: Rule = Rule { number: 30 };

/// A header with a wrong number of fields or wrong words.
pub const BAD_HEADER: Rule = Rule { number: 31 };

/// A line that is not the one expected there.
pub const MISPLACED: Rule = Rule { number: 32 };

/// A wrong number of fields.
pub const FIELDS: Rule = Rule { number: 33 };

/// A field that is no number where one belongs.
pub const NOT_A_NUMBER: Rule = Rule { number: 34 };

/// A number above its limit.
pub const TOO_LARGE: Rule = Rule { number: 35 };

/// A text that ends before its last answer is complete.
pub const CUT_OFF: Rule = Rule { number: 36 };
