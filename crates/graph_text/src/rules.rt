//! The rules of graph files, question files and bundles, each by its number.
use text_lines::Rule;

/// A line that comes before the problem line, or no problem line at all.
pub const NO_PROBLEM: Rule = Rule { number: 10 };

/// A further problem line.
pub const SECOND_PROBLEM: Rule = Rule { number: 11 };

/// A problem line with a wrong number of fields or wrong words.
pub const BAD_PROBLEM: Rule = Rule { number: 12 };

/// A line whose first field is no keyword of the text.
pub const UNKNOWN_LINE: Rule = Rule { number: 13 };

/// A wrong number of fields.
pub const FIELDS: Rule = Rule { number: 14 };

/// A field that is no number where one belongs.
pub const NOT_A_NUMBER: Rule = Rule { number: 15 };

/// A number above its limit.
pub const TOO_LARGE: Rule = Rule { number: 16 };

/// A vertex that is 0 or above the number of vertices.
pub const NO_VERTEX: Rule = Rule { number: 17 };

/// A line after the announced number of lines.
pub const TOO_MANY: Rule = Rule { number: 18 };

/// Fewer lines than announced.
pub const TOO_FEW: Rule = Rule { number: 19 };
