//! What the words of a line ask for. Each law is the contract of a function that does nothing.
ghost use Rattle.hy_cli.specs.CommandLaws.{LineAsksForItself, WordsAskForOne, WordsAskOrAreRefused};

/// Words that are a line ask for just that line.
pub fn line_asks_for_itself()
    ensures { LineAsksForItself }
{}

/// No words ask for two lines.
pub fn words_ask_for_one()
    ensures { WordsAskForOne }
{}

/// All words but those that `clap` refuses ask for a line.
pub fn words_ask_or_are_refused()
    ensures { WordsAskOrAreRefused }
{}
