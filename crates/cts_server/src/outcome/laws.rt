// What holds of the troubles that are told.
ghost use Rattle.cts_server.specs.TroubleLaws.{PlainWhereNoneIsTold, TellsTheFirst};

/// The trouble that is told is shown, and none with a lesser number is.
pub fn first_trouble_is_told()
    ensures { TellsTheFirst }
{}

/// Where none is told, all was put, each worker ended for a plain reason, and no connection was closed for want of memory or of room.
pub fn plain_where_none_is_told()
    ensures { PlainWhereNoneIsTold }
{}
