//! Laws of the requests in the bytes of a connection, and of what is put on it.

ghost use Rattle.cts_http.specs.Laws.{NoneLacksRequests, HaveOneRequests, RequestsGrow, RefusalsStay, ClosedStays, WaitingIsBounded, HaveOneStream};
ghost use Rattle.cts_http.specs.Laws.{OneMoreResponse};

/// No bytes of a connection lack a list of requests, and they have no two, nor two endings, but that a target which no UTF-8 can become, and which
/// stands last after them, may be refused before its end. More bytes only add requests, and change nothing after a refusal
/// or after a request that ends the connection.
pub fn connections_have_one_list_of_requests()
    ensures some { NoneLacksRequests }
    ensures one { HaveOneRequests }
    ensures grow { RequestsGrow }
    ensures refusals_stay { RefusalsStay }
    ensures closed_stays { ClosedStays }
{}

/// What is neither accepted nor refused has at most 1,064,960 bytes.
pub fn waiting_is_bounded()
    ensures { WaitingIsBounded }
{}

/// The bytes of a connection have one stream of responses for the same fronts and texts, with the same exception. One more
/// whole request adds one response.
pub fn connections_have_one_stream()
    ensures one { HaveOneStream }
    ensures one_more { OneMoreResponse }
{}
