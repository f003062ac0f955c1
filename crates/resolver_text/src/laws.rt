//! What is true of the definitions. These functions do nothing: their contracts are the laws.
ghost use Rattle.resolver_text.specs.OrderLaws.{AreOrdered};
ghost use Rattle.resolver_text.specs.TextLaws.{AreResolverLines, HaveLimits, KeepUnlike};

/// The ordered parts are the parts that were given, each once, and none stands behind one that it comes before.
/// Those of which neither comes before the other stand as they were given.
pub fn parts_are_ordered()
    ensures { AreOrdered }
{}

/// Each line of a text is a `search` line of names or a `nameserver` line of one address, whatever names the servers
/// sent. There are no more names and servers than the limits say. Texts without duplicates are the same texts, no two
/// alike.
pub fn texts_are_lines()
    ensures lines { AreResolverLines }
    ensures limits { HaveLimits }
    ensures unlike { KeepUnlike }
{}
