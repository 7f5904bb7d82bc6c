//! Laws of messages that are written and read, over the definitions alone.

ghost use Rattle.std.specs.Prelude.{ℕ, ◌≤◌, ◌+◌, List, [], ◌∷◌, length, Option};
ghost use Rattle.type_graph.specs.declared.width.Order.{Order};
ghost use Rattle.type_graph.specs.Value.{NoTree};
ghost use Rattle.giop_messages.specs.Heads.{max_size, request_type, reply_type};
ghost use Rattle.giop_types.specs.Fields.{octet_trees};
ghost use Rattle.giop_messages.specs.declared.message.ReplyStatus.{ReplyStatus};
ghost use Rattle.giop_messages.specs.Headers.{key_target, number_of, reply_tree, request_tree};
ghost use Rattle.giop_messages.specs.Written.{Given, IsWritten};
ghost use Rattle.giop.specs.RoundTrips.{SaysReply, SaysRequest};
ghost use Rattle.giop_types.specs.GiopNodes.{request_header_node, reply_header_node};

/// What is written as a request says this request.
pub fn written_request_is_said()
    ensures { (order : Order) (id flags : ℕ) (key operation : List ℕ) (body : Option Given) (octets : List ℕ)
        → length octets ≤ 12 + max_size
        → IsWritten order request_type request_header_node
        (request_tree id flags (octet_trees (0 ∷ 0 ∷ 0 ∷ [])) (key_target key) operation NoTree)
        body octets
        → SaysRequest order id flags key operation body octets }
{}

/// What is written as a reply says this reply.
pub fn written_reply_is_said()
    ensures { (order : Order) (id : ℕ) (status : ReplyStatus) (body : Option Given) (octets : List ℕ)
        → length octets ≤ 12 + max_size
        → IsWritten order reply_type reply_header_node (reply_tree id (number_of status) NoTree) body octets
        → SaysReply order id status body octets }
{}
