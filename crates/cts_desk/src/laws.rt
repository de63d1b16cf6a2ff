//! Laws of what a desk says.

ghost use Rattle.cts_desk.specs.Laws.{OutOfMemoryIsTold, StreamsArePut};

/// What a desk says where no memory was found is the text of the response with that error and an id that is not known.
pub fn out_of_memory_is_told()
    ensures { OutOfMemoryIsTold }
{}

/// What a desk puts on a connection is the stream of the bytes that it took from it, with the fronts and texts of its exchanges, unless a put failed or
/// no memory was found.
pub fn streams_are_put()
    ensures { StreamsArePut }
{}
