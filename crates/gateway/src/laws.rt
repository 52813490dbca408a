//! Laws of gateways. Each function does nothing; its contract is the law.

ghost use Rattle.gateway.specs.Laws.{HasOneBook, HasOneListOfRecords, HasOneRecord, HasSomeRecord, IsKeptWherePassed, IsNoNonceTwice, IsOwnLabelRight, IsServedInOneWay};

/// A message has one record, and the book after it is one, its entries in any order.
pub fn records_are_one()
    ensures some { HasSomeRecord }
    ensures one { HasOneRecord }
    ensures book { HasOneBook }
{}

/// The items of a stream have one list of records, and so has a stream, however it is cut.
pub fn a_stream_has_one_list_of_records()
    ensures items { HasOneListOfRecords }
    ensures stream { IsServedInOneWay }
{}

/// A message that passes keeps the accepted signature, accepted still; the gateway's own is right.
pub fn a_passed_message_keeps_its_signature()
    ensures kept { IsKeptWherePassed }
    ensures own { IsOwnLabelRight }
{}

/// Where nonces are checked, no signature parameters with one are accepted twice in a stream.
pub fn no_nonce_is_accepted_twice()
    ensures { IsNoNonceTwice }
{}
