// What the grammar and the values say of words.
ghost use Rattle.med_words.specs.Request.{AsksOnce};

/// A law: words ask for one thing at most. Each use of an option, the command word and each value
/// can be read off the words in one way only.
pub fn one_request()
    ensures one { AsksOnce }
{}
