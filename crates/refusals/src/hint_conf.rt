//! What a configuration has to have, by the key that isn't right.

ghost use Rattle.std.specs.Prelude.{IsTrue};
ghost use Rattle.std.specs.List.{list_all};
ghost use Rattle.byte_grammar.specs.Classes.{is_line_byte};

use conf::ConfFault;
use sfv_text::Text;

/// What comes of the tables that have fixed keys.
fn keys_hint(path: &[u8]) -> &'static str
    ensures { IsTrue (list_all is_line_byte result.now) }
{
    if path == b"policies".as_slice() {
        return "a table of `policies` has a key that isn't known; it takes tag, max-age, skew, \
            require-request, require-response, expires, nonce and digest; nonces stands before \
            the first table";
    }
    if path == b"policy".as_slice() {
        return "`policy` has a key that isn't known; it takes max-age, skew, require-request, \
            require-response, expires, nonce, nonces, tag and digest";
    }
    if path == b"sign".as_slice() {
        return "`sign` has a key that isn't known; it takes label, keyid, components-request, \
            components-response, expires-after, alg, tag and digest";
    }
    if path == b"gateway".as_slice() {
        return "`gateway` has a key that isn't known; it takes label and steps";
    }
    "there is a key that isn't known before the first table, or a table that isn't; version, \
     scheme and the tables keys, types, sign and gateway are, in version 1 policy too, and in \
     version 2 nonces and the tables of policies"
}

/// What the value of a key of `policy` has to be.
fn policy_hint(path: &[u8]) -> &'static str
    ensures { IsTrue (list_all is_line_byte result.now) }
{
    if path == b"policy.max-age".as_slice() {
        return "policy.max-age is an integer without quotes, seconds from 1 to 86400, and \
            with twice policy.skew (60 where it isn't set) at most 86400";
    }
    if path == b"policy.skew".as_slice() {
        return "policy.skew is an integer without quotes, seconds from 0 to 3600";
    }
    if path == b"policy.nonces".as_slice() {
        return "policy.nonces is an integer without quotes, from 1 to 65536";
    }
    if path == b"policy.nonce".as_slice() {
        return "policy.nonce is \"ignore\", \"check\" or \"require\"";
    }
    if path == b"policy.expires".as_slice() {
        return "policy.expires is \"optional\" or \"require\"";
    }
    if path == b"policy.digest".as_slice() {
        return "policy.digest is \"ignore\", \"content\" or \"always\"";
    }
    if path == b"policy.tag".as_slice() {
        return "policy.tag is a text in quotes, of characters from space to ~";
    }
    "a list of covered components is a text in quotes with names in double quotes within \
     parentheses, as require-request = '(\"@method\" \"date\")', and no parameters after it"
}

/// What the value of a key of the tables of `policies` has to be.
fn policies_hint(path: &[u8]) -> &'static str
    ensures { IsTrue (list_all is_line_byte result.now) }
{
    if path == b"policies.max-age".as_slice() {
        return "max-age is an integer without quotes, seconds from 1 to 604800, and with twice \
            the skew of the same table (60 where it isn't set) at most 604800";
    }
    if path == b"policies.skew".as_slice() {
        return "skew is an integer without quotes, seconds from 0 to 3600";
    }
    if path == b"policies.nonce".as_slice() {
        return "nonce is \"ignore\", \"check\" or \"require\"";
    }
    if path == b"policies.expires".as_slice() {
        return "expires is \"optional\" or \"require\"";
    }
    if path == b"policies.digest".as_slice() {
        return "digest is \"ignore\", \"content\" or \"always\"";
    }
    if path == b"policies.tag".as_slice() {
        return "tag is a text in quotes, of characters from space to ~: the tag of the signatures \
            that the policy is for";
    }
    "a list of covered components is a text in quotes with names in double quotes within \
     parentheses, as require-request = '(\"@method\" \"date\")', and no parameters after it"
}

/// What the value of a key of `sign` has to be.
fn sign_hint(path: &[u8]) -> &'static str
    ensures { IsTrue (list_all is_line_byte result.now) }
{
    if path == b"sign.label".as_slice() {
        return "sign.label is a label in quotes: lower-case letters, digits and _-.*, with a \
            letter or * first";
    }
    if path == b"sign.keyid".as_slice() {
        return "sign.keyid is a keyid in quotes, one of those that the table keys has";
    }
    if path == b"sign.expires-after".as_slice() {
        return "sign.expires-after is an integer without quotes, seconds from 1 to 86400";
    }
    if path == b"sign.alg".as_slice() {
        return "sign.alg is true or false, without quotes";
    }
    if path == b"sign.tag".as_slice() {
        return "sign.tag is a text in quotes, of characters from space to ~";
    }
    if path == b"sign.digest".as_slice() {
        return "sign.digest is \"none\", \"sha-256\" or \"sha-512\"";
    }
    "a list of covered components is a text in quotes with names in double quotes within \
     parentheses, as components-request = '(\"@method\" \"date\")', and no parameters after it"
}

/// What the value of a key of `gateway` has to be.
fn gateway_hint(path: &[u8]) -> &'static str
    ensures { IsTrue (list_all is_line_byte result.now) }
{
    if path == b"gateway.label".as_slice() {
        return "gateway.label is a label in quotes: lower-case letters, digits and _-.*, with a \
            letter or * first";
    }
    "gateway.steps is an array of at most 256 texts in quotes, each the line of a step, as \
     steps = [\"remove h 1\", \"add h 0 Via 1.1 gw\"]"
}

/// What the value of a key of the document has to be.
fn top_hint(path: &[u8]) -> &'static str
    ensures { IsTrue (list_all is_line_byte result.now) }
{
    if path == b"version".as_slice() {
        return "version is the integer 1 or 2, without quotes";
    }
    if path == b"nonces".as_slice() {
        return "nonces is an integer without quotes, from 1 to 65536";
    }
    if path == b"policies".as_slice() {
        return "policies is an array of 1 to 16 tables, each with a tag of its own, and one of \
            them may have none: lines [[policies]], each with the keys of one policy after it";
    }
    if path == b"scheme".as_slice() {
        return "scheme is \"http\" or \"https\"";
    }
    if path == b"keys".as_slice() {
        return "keys is a table of keyids, each of 1 to 64 characters from space to ~, with a \
            key in quotes; what comes after the line [keys] belongs to it, so version and \
            scheme come before it";
    }
    if path == b"types".as_slice() {
        return "types is a table of names of fields, in lower case, each with \"item\", \
            \"list\" or \"dictionary\"; what comes after the line [types] belongs to it, so a \
            key of another table, as of policy, comes before it or after a line [policy]";
    }
    "policy, sign and gateway are tables: a line [policy], and its keys in the lines after it"
}

/// What the value of a key has to be.
fn value_hint(path: &[u8]) -> &'static str
    ensures { IsTrue (list_all is_line_byte result.now) }
{
    if path.starts_with(b"policies.") {
        return policies_hint(path);
    }
    if path.starts_with(b"policy.") {
        return policy_hint(path);
    }
    if path.starts_with(b"sign.") {
        return sign_hint(path);
    }
    if path.starts_with(b"gateway.") {
        return gateway_hint(path);
    }
    top_hint(path)
}

/// What a configuration has to have.
pub(crate) fn conf_hint(fault: &ConfFault) -> &'static str
    ensures { IsTrue (list_all is_line_byte result.now) }
{
    match fault {
        ConfFault::Memory => "out of memory",
        ConfFault::NotToml => {
            "the configuration is no TOML in UTF-8: lines `key = value` with texts in quotes, \
             after a line `[table]`"
        }
        ConfFault::UnknownKey(path) => keys_hint(path.bytes()),
        ConfFault::WrongType(path) => value_hint(path.bytes()),
        ConfFault::OutOfRange(path) => value_hint(path.bytes()),
        ConfFault::BadKeyText(_) => {
            "a text in the table keys isn't base64 with its padding (A to Z, a to z, 0 to 9, \
             + and /, four by four, filled up by =) of 1 to 1024 bytes; what comes after the \
             line [keys] belongs to it, so version and scheme come before it"
        }
        ConfFault::BadComponents(path) => value_hint(path.bytes()),
        ConfFault::BadScript(_) => {
            "a text of gateway.steps isn't the line of a step: words with one space between them, \
             and no LF, as \"remove h 1\"; the steps are those of a script, which hms rewrite takes"
        }
        ConfFault::Missing(path) => missing_key_hint(path),
    }
}

/// What a table lacks.
fn missing_key_hint(path: &Text) -> &'static str
    ensures { IsTrue (list_all is_line_byte result.now) }
{
    if path.bytes() == b"sign".as_slice() {
        return "the command needs a table sign with label and keyid: a line [sign], and \
            then label = \"sig1\" and keyid = \"..\" of one of keys";
    }
    if path.bytes() == b"gateway".as_slice() {
        return "the command gateway needs a table gateway, which may be empty: a line [gateway], \
            and after it label or steps; and a table sign";
    }
    "a table sign has to have label and keyid, a label in quotes and one of the keyids of keys"
}
