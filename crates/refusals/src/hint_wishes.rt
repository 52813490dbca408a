//! What the components of a wish in `Accept-Signature` have to be. The line of such a refusal has
//! the index of the member, and not that of the component.

ghost use Rattle.std.specs.Prelude.{IsTrue};
ghost use Rattle.std.specs.List.{list_all};
ghost use Rattle.byte_grammar.specs.Classes.{is_line_byte};

use component_ids::{BadReason, IdFault};

/// Why one of the components is no identifier.
fn wished_reason_hint(reason: BadReason) -> &'static str
    ensures { IsTrue (list_all is_line_byte result.now) }
{
    match reason {
        BadReason::NotAString => {
            "a component in the member of that index, counted from 0, isn't in double quotes: \
             sig1=(\"@method\" \"date\")"
        }
        BadReason::Name => {
            "a name in the member of that index, counted from 0, is that of no component: a field \
             has its name in lower case, and the others are @method, @target-uri, @authority, \
             @scheme, @request-target, @path, @query, @query-param and @status"
        }
        BadReason::ParameterUnknown => {
            "in the member of that index, counted from 0, a parameter doesn't go with its \
             component: a field takes sf, key, bs, req and tr, @query-param takes name, and all \
             but @status take req"
        }
        BadReason::ParameterType => {
            "in the member of that index, counted from 0, a parameter of a component has a value \
             of a wrong type: key and name take a String, the others none"
        }
        BadReason::ParametersClash => {
            "in the member of that index, counted from 0, a component has bs beside sf or key"
        }
        BadReason::NameMissing => {
            "in the member of that index, counted from 0, a component lacks its name: \
             \"@query-param\";name=\"p\""
        }
    }
}

/// What the components of a wish have to be.
pub(crate) fn wished_ids_hint(fault: &IdFault) -> &'static str
    ensures { IsTrue (list_all is_line_byte result.now) }
{
    match fault {
        IdFault::Memory => "out of memory",
        IdFault::TooMany => {
            "in the member of that index, counted from 0, are more than 128 components"
        }
        IdFault::BadComponent(_, reason) => wished_reason_hint(*reason),
        IdFault::Repeated(_) => {
            "in the member of that index, counted from 0, a component is there twice"
        }
        // the parameters of a wish have a fault of their own
        IdFault::BadParameter(_) => {
            "in the member of that index, counted from 0, a parameter has a value of a wrong type"
        }
    }
}
