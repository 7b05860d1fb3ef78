//! Worked examples of the definitions.
ghost use Rattle.std.specs.Prelude.{◌≡◌, ◌∷◌, [], codes, true, false, Some};
ghost use Rattle.dns_rdata.specs.Numbers.{type_A, type_CNAME, type_MX, type_TXT, type_SRV, type_ANY};
ghost use Rattle.dns_rdata.specs.declared.numbers.Rcode.TheVariants.{NoError, NxDomain};
ghost use Rattle.lookup_core.specs.Place.{place, closest_encloser};
ghost use Rattle.lookup_core.specs.declared.matched.Place.TheVariants as at;
ghost use Rattle.zone_tree.specs.Zone.{IsZone};
ghost use Rattle.lookup_core.specs.Look.{look, Cut, Data, NoData, NoName};
ghost use Rattle.lookup_core.specs.Chain.{chain, Found, Stop};
ghost use Rattle.lookup_core.specs.Sections.{sections};
ghost use Rattle.lookup_core.specs.Examples.{address, ns, alias, mx, txt, apex, below, under, outside, small_soa, small_zone, example, in_example, at_wildcard, service_at, wildcard_zone};

/// The records of the worked examples are zones.
pub fn examples_are_zones()
    ensures small { IsZone small_zone }
    ensures wildcards { IsZone wildcard_zone }
{}

/// What is found in the zone of RFC 4592, 2.2.1, which tells this of it: the first three are synthesized, and the
/// others aren't.
pub fn examples_of_wildcards()
    ensures exchange { look wildcard_zone (in_example "host3") type_MX ≡ Data (mx (in_example "host3") 10 (in_example "host1") ∷ []) }
    ensures no_address { look wildcard_zone (in_example "host3") type_A ≡ NoData }
    ensures text { look wildcard_zone (codes "foo" ∷ in_example "bar") type_TXT ≡ Data (txt (codes "foo" ∷ in_example "bar") "this is a wildcard" ∷ []) }
    ensures host_exists { look wildcard_zone (in_example "host1") type_MX ≡ NoData }
    ensures below_wildcard_exists { look wildcard_zone (at_wildcard "sub") type_MX ≡ NoData }
    ensures encloser_is_empty { look wildcard_zone (service_at "_telnet" "host1") type_SRV ≡ NoName }
    ensures below_cut { look wildcard_zone (codes "host" ∷ in_example "subdel") type_A ≡ Cut (in_example "subdel") }
    ensures encloser_is_wildcard { look wildcard_zone (at_wildcard "ghost") type_MX ≡ NoName }
{}

/// The answers of a small zone: each case of an answer, and what comes with it.
#[tactic(auto, unfolding(crate::specs::Chain::chain, dns_rdata::specs::Layout::layout_of))]
pub fn examples_of_answers()
    ensures outside { place small_zone outside ≡ at.Outside }
    ensures apex_is_no_cut { place small_zone apex ≡ at.Exact }
    ensures cut { place small_zone (under "x" "sub") ≡ at.Cut (below "sub") }
    ensures empty { place small_zone (below "b") ≡ at.Exact }
    ensures wild { place small_zone (codes "p" ∷ under "q" "dyn") ≡ at.Wild (under "*" "dyn") }
    ensures missing { place small_zone (under "zz" "b") ≡ at.Missing }
    ensures aliased { sections small_zone (below "www") type_A ≡ record { rcode = NoError; aa = true; answer = alias (below "www") (below "web") ∷ address (below "web") 10 ∷ []; authority = []; additional = []; below_cut = false } }
    ensures alias_itself { sections small_zone (below "www") type_CNAME ≡ record { rcode = NoError; aa = true; answer = alias (below "www") (below "web") ∷ []; authority = []; additional = []; below_cut = false } }
    ensures no_name { sections small_zone (below "nope") type_A ≡ record { rcode = NxDomain; aa = true; answer = []; authority = record small_soa { ttl = 300 } ∷ []; additional = []; below_cut = false } }
    ensures empty_non_terminal { sections small_zone (below "b") type_A ≡ record { rcode = NoError; aa = true; answer = []; authority = record small_soa { ttl = 300 } ∷ []; additional = []; below_cut = false } }
    ensures encloser { closest_encloser small_zone (under "zz" "b") ≡ Some (below "b") }
    ensures below_encloser { sections small_zone (under "zz" "b") type_A ≡ record { rcode = NxDomain; aa = true; answer = []; authority = record small_soa { ttl = 300 } ∷ []; additional = []; below_cut = false } }
    ensures referral { sections small_zone (under "x" "sub") type_A ≡ record { rcode = NoError; aa = false; answer = []; authority = ns (below "sub") (under "ns" "sub") ∷ []; additional = address (under "ns" "sub") 53 ∷ []; below_cut = true } }
    ensures synthesized { sections small_zone (codes "p" ∷ under "q" "dyn") type_A ≡ record { rcode = NoError; aa = true; answer = address (codes "p" ∷ under "q" "dyn") 99 ∷ []; authority = []; additional = []; below_cut = false } }
    ensures exchange { sections small_zone (below "mail") type_MX ≡ record { rcode = NoError; aa = true; answer = mx (below "mail") 10 (below "web") ∷ []; authority = []; additional = address (below "web") 10 ∷ []; below_cut = false } }
{}

/// Chains of aliases that stop: at a target already searched, and at one outside the zone.
#[tactic(auto, unfolding(crate::specs::Chain::chain))]
pub fn examples_of_chains()
    ensures loop_noticed { chain small_zone (below "loop1") type_A ≡ record { aliases = alias (below "loop1") (below "loop2") ∷ alias (below "loop2") (below "loop1") ∷ []; end = Stop } }
    ensures leaves_zone { chain small_zone (below "out") type_A ≡ record { aliases = alias (below "out") outside ∷ []; end = Stop } }
    ensures nothing_more { sections small_zone (below "out") type_A ≡ record { rcode = NoError; aa = true; answer = alias (below "out") outside ∷ []; authority = []; additional = []; below_cut = false } }
    ensures any { chain small_zone (below "www") type_ANY ≡ record { aliases = []; end = Found (Data (alias (below "www") (below "web") ∷ [])) } }
{}
