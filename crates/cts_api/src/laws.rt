//! Laws of the definitions.

ghost use Rattle.cts_api.specs.Legal.{RepliesAreLegal, RepliesAreOfTheirDesk};
ghost use Rattle.cts_api.specs.Made.{CommandsAreBuilt, InjectionsAreWritten};
ghost use Rattle.cts_api.specs.Replies.{AnswersAreWhole, ReplyIsOne, ReplyIsThere};
ghost use Rattle.cts_api.specs.Rows.{RowsHold};

/// Some calls, with what they ask and answer over a small site.
pub fn rows_are_as_defined()
    ensures { RowsHold }
{}

/// A body has exactly one reply at each point of the history.
pub fn reply_is_one()
    ensures one { ReplyIsOne }
    ensures there { ReplyIsThere }
{}

/// No result has a number with a fraction, so that each has one text.
pub fn answers_are_whole()
    ensures { AnswersAreWhole }
{}

/// The bytes that a reply appends are those that are built of a command's request, and those that an injection leaves.
pub fn bytes_are_made()
    ensures commands { CommandsAreBuilt }
    ensures injections { InjectionsAreWritten }
{}

/// What a reply appends is of the desk that was asked, and ends nobody.
pub fn replies_are_of_their_desk()
    ensures { RepliesAreOfTheirDesk }
{}

/// What a desk that has not ended replies leaves a legal history legal.
pub fn replies_are_legal()
    ensures { RepliesAreLegal }
{}
