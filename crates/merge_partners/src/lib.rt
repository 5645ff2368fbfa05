// The demanded pairs of two sides: classes of URIs, keys of marks, and the partner of each line.
#![tactic(auto)]

ghost use Rattle.std.specs.Prelude.{◌≡◌, true, not, ◌+◌, ◌<◌, ◌≤◌, eqb, length, set, replicate};
ghost use Rattle.numbers.specs.Limits as limit;
ghost use Rattle.numbers.specs.Properties as property;
ghost use Rattle.property_table.specs.Rows.{Lists};
ghost use Rattle.merge_pids.specs.Marks.{mark_length};
ghost use Rattle.merge_sides.specs.Lines.{one, same_property};
ghost use Rattle.merge_partners.specs.Keys.{sets_from, uri_of, class_of, classes_of, class_by, key_of, number_at, key_at};
ghost use Rattle.merge_partners.specs.Heads.{modulus, with_octet, digest_from, digest_of, head_from, Digests, Known, tag_of, seat_of, tag_at, seat_at, is_new, count_new, partner_of, Tagged, Sifts};
ghost use Rattle.merge_partners.specs.Pairs.{joined, join_to, join_all, key_pair, hit_pairs, mark_pairs, shared_pairs, row_pairs, single_pairs, joined_first, first_of, demanded_pairs, pairs_from, same_uids};

use merge_sources::{Row, Source};
use numbers::{field, limit, property};
use octets::indices::wide_number;
use octets::slices::part;
use property_table::rows::PropertyTable;

// For each line of a card its partner's number and 1 more, 0 for none.
pub type Partners = [u32; limit::LINES];

// The class of each entry of a row: the first entry of the first card's row with the same URI, 16 for none.
pub type Classes = [usize; limit::SOURCES];

// The key of a mark that leads nowhere.
const NO_KEY: u32 = 4294967295;

// A card that was read: its copy, its records, and how many lines it has.
#[derive(Clone, Copy)]
pub struct Side<'a> {
    pub copy: &'a [u8],
    pub records: &'a [u32],
    pub lines: usize,
}

// The second card's marks by their numbers, each with its key, its tag, and how its line stands as a partner.
#[derive(Clone, Copy)]
struct Marks<'a> {
    numbers: &'a [u32],
    keys: &'a [u32],
    tags: &'a [u32],
    seats: &'a [u32],
}

// A line that was looked at, and its head: the first line of the first card that has its property.
#[derive(Clone, Copy)]
struct Headed {
    line: usize,
    head: usize,
}

// The factor of a digest, and what it stays below: primes, so that names seldom have one digest.
const FACTOR: usize = 32749;

const MODULUS: usize = 281474976710597;

// A key that leads somewhere is below this number, and a tag has room for so many heads.
const KEYS: usize = 1048576;

const HEADS: usize = 4095;

// The numbers of a mark: its line, the PID's first number and its source number.
const LINE: usize = 0;

const FIRST: usize = 1;

const SOURCE: usize = 2;

// The URI of an entry in its card's copy.
fn uri_of(c: &[u8], e: Source) -> &[u8]
    ensures { result.now ≡ uri_of c.now e }
{
    let place = wide_number(e.place);
    let end = place + wide_number(e.length);
    part(c, place, end)
}

// The first entry of the first card's row with this URI, 16 for none.
fn class_of(ca: &[u8], a: Row, uri: &[u8]) -> usize
    ensures value { result ≡ class_of ca.now a uri.now }
    ensures upper_bound { result ≤ limit.sources }
{
    for (i, e) in a.entries.iter().enumerate() {
        if a.count <= i {
            return limit::SOURCES;
        }
        if merge_sides::same_octets(uri_of(ca, *e), uri) {
            return i;
        }
    }
    limit::SOURCES
}

// The classes of the entries of a card's row.
fn classes_of(ca: &[u8], a: Row, c: &[u8], own: Row) -> Classes
    ensures { result ≡ classes_of ca.now a c.now own }
{
    let mut classes = [limit::SOURCES; limit::SOURCES];
    for (i, e) in own.entries.iter().enumerate() {
        classes[i] = class_of(ca, a, uri_of(c, *e));
    }
    classes
}

// The class that a source number leads to through its card's row, 16 for none.
fn class_by(own: Row, classes: &Classes, source: u32) -> usize
    ensures { result ≡ class_by own classes.now source }
{
    let Some(i) = merge_sources::search(own, source) else {
        return limit::SOURCES;
    };
    if limit::SOURCES <= i {
        return limit::SOURCES;
    }
    classes[i]
}

// A PID's key: two PIDs of different cards share a global value where they have one key and lead somewhere.
fn key_of(own: Row, classes: &Classes, first: u32, source: u32) -> u32
    ensures { result ≡ key_of own classes.now first source }
{
    let class = class_by(own, classes, source);
    if limit::SOURCES <= class {
        return NO_KEY;
    }
    if limit::SOURCE_NUMBER < wide_number(first) {
        return NO_KEY;
    }
    first * 16 + class as u32
}

// A number of the mark k; 0 where there is none.
fn number_of(marks: &[u32], k: usize, f: usize) -> u32
    requires { f < mark_length }
    ensures { result ≡ number_at marks.now k f }
{
    if limit::LINES < k {
        return 0;
    }
    let at = k * merge_pids::MARK + f;
    if marks.len() <= at {
        return 0;
    }
    marks[at]
}

// The key of the mark k.
fn key_at(marks: &[u32], k: usize, own: Row, classes: &Classes) -> u32
    ensures { result ≡ key_at marks.now own classes.now k }
{
    let first = number_of(marks, k, FIRST);
    let source = number_of(marks, k, SOURCE);
    key_of(own, classes, first, source)
}

// Writes a number at i, where there is room.
fn put_number<T: Copy>(xs: &mut [T], i: usize, n: T)
    ensures { xs.new ≡ set xs.old i n }
{
    if i < xs.len() {
        xs[i] = n;
    }
}

// Writes the keys of the first n marks.
fn put_keys(marks: &[u32], n: usize, own: Row, classes: &Classes, keys: &mut [u32])
    ensures { keys.new ≡ sets_from (key_at marks.now own classes.now) keys.old 0 n }
{
    for k in 0..n {
        put_number(keys, k, key_at(marks, k, own, classes));
    }
}

// A digest with one octet more.
fn append_octet(digest: usize, b: u8) -> usize
    requires { digest < modulus }
    ensures value { result ≡ with_octet digest b }
    ensures upper_bound { result < modulus }
{
    let octet = octets::indices::wide(octets::cases::lower(b));
    (digest * FACTOR + octet) % MODULUS
}

// The digest of a name, the same for names that are equal without case.
fn digest_name(s: &[u8]) -> usize
    ensures { result ≡ digest_from 0 s.now }
{
    let mut digest: usize = 0;
    for b in s {
        digest = append_octet(digest, *b);
    }
    digest
}

// A number that lines of one property share: the property's, or for number 0 the digest of the name.
fn digest_of(side: &Side, i: usize) -> usize
    ensures { result ≡ digest_of side.now.copy.now side.now.records.now i }
{
    let rs = side.records;
    let row = merge_sides::field_at(rs, i, field::PROPERTY);
    if row != property::OTHER {
        return row;
    }
    let start = merge_sides::name_start(rs, i);
    let name = part(
        side.copy,
        start,
        start + merge_sides::field_at(rs, i, field::NAME),
    );
    digest_name(name)
}

// Writes the digests of the first n lines.
fn put_digests(side: &Side, n: usize, digests: &mut [usize])
    ensures { digests.new ≡ sets_from (digest_of side.now.copy.now side.now.records.now) digests.old 0 n }
{
    for i in 0..n {
        put_number(digests, i, digest_of(side, i));
    }
}

// Whether line i of the first card has the property of line j of a card; names are compared only where the digests d and e are equal.
fn is_alike(x: &Side, i: usize, d: usize, y: &Side, j: usize, e: usize) -> bool
    requires { (d ≡ digest_of x.now.copy.now x.now.records.now i) × (e ≡ digest_of y.now.copy.now y.now.records.now j) }
    ensures { result ≡ same_property x.now.copy.now x.now.records.now i y.now.copy.now y.now.records.now j }
{
    if d != e {
        return false;
    }
    merge_sides::same_property(x.copy, x.records, i, y.copy, y.records, j)
}

// The head of line j of a card among the lines of the first card that have digests; 4,096 for none.
fn head_of(x: &Side, digests: &[usize], y: &Side, j: usize) -> usize
    requires { Digests x.now.copy.now x.now.records.now digests.now }
    ensures { result ≡ head_from x.now.copy.now x.now.records.now y.now.copy.now y.now.records.now j 0 (length digests.now) }
{
    let digest = digest_of(y, j);
    for (i, d) in digests.iter().enumerate() {
        if is_alike(x, i, *d, y, j, digest) {
            return i;
        }
    }
    limit::LINES
}

// Looks at line j of a card, unless it is the one that was looked at last.
fn look<'a>(x: &Side<'a>, digests: &[usize], y: &Side<'a>, j: usize, last: Option<Headed>) -> Headed
    requires digests { Digests x.now.copy.now x.now.records.now digests.now }
    requires known { Known x.now.copy.now x.now.records.now (length digests.now) y.now.copy.now y.now.records.now last }
    ensures line_value { result.line ≡ j }
    ensures head_value { result.head ≡ head_from x.now.copy.now x.now.records.now y.now.copy.now y.now.records.now j 0 (length digests.now) }
{
    if let Some(known) = last
        && known.line == j
    {
        return known;
    }
    Headed {
        line: j,
        head: head_of(x, digests, y, j),
    }
}

// The tag of a mark, of its line's head and its key: marks of lines of one property with one key have one tag.
fn tag_of(head: usize, key: u32) -> u32
    ensures { result ≡ tag_of head key }
{
    if HEADS <= head {
        return NO_KEY;
    }
    if KEYS <= wide_number(key) {
        return NO_KEY;
    }
    head as u32 * 1048576 + key
}

// Writes the tags of the second card's marks, which have these keys.
fn put_tags<'a>(
    x: &Side<'a>,
    digests: &[usize],
    y: &Side<'a>,
    marks: &[u32],
    keys: &[u32],
    tags: &mut [u32],
)
    requires digests { Digests x.now.copy.now x.now.records.now digests.now }
    requires keys_len_bound { length keys.now ≤ limit.lines }
    ensures { tags.new ≡ sets_from (tag_at x.now.copy.now x.now.records.now (length digests.now) y.now.copy.now y.now.records.now marks.now keys.now) tags.old 0 (length keys.now) }
{
    let mut last = None;
    for (k, key) in keys.iter().enumerate() {
        let j = wide_number(number_of(marks, k, LINE));
        let headed = look(x, digests, y, j, last);
        put_number(tags, k, tag_of(headed.head, *key));
        last = Some(headed);
    }
}

// How a line stands as a partner: its number and 1 more, 4,097 for a line that no card has.
fn seat_of(line: u32) -> u32
    ensures { result ≡ seat_of line }
{
    if limit::LINES <= wide_number(line) {
        return 4097;
    }
    line + 1
}

// Writes how the lines of the first n marks stand as partners.
fn put_seats(marks: &[u32], n: usize, seats: &mut [u32])
    ensures { seats.new ≡ sets_from (seat_at marks.now) seats.old 0 n }
{
    for k in 0..n {
        put_number(seats, k, seat_of(number_of(marks, k, LINE)));
    }
}

// Whether a mark has this tag and a line that is not the partner already.
fn is_new(tag: u32, seat: u32, own: u32, partner: u32) -> bool
    ensures { result ≡ is_new tag seat own partner }
{
    tag == own && seat != partner
}

// How many marks have this tag and a line that is not the partner already.
fn count_new(tags: &[u32], seats: &[u32], own: u32, partner: u32) -> u32
    requires { (length seats.now ≡ length tags.now) × (length tags.now ≤ limit.lines) }
    ensures { result ≡ count_new tags.now seats.now own partner 0 (length tags.now) }
{
    let mut hits: u32 = 0;
    for (k, tag) in tags.iter().enumerate() {
        hits += u32::from(is_new(*tag, seats[k], own, partner));
    }
    hits
}

// The partner of line i as it stands, 0 for none.
fn partner_of(p: &Partners, i: usize) -> u32
    ensures { result ≡ partner_of p.now i }
{
    if limit::LINES <= i {
        return 0;
    }
    if limit::LINES < wide_number(p[i]) {
        return 0;
    }
    p[i]
}

// Pairs line i of the first card with line j of the second; false where one of them has another partner.
fn join(p: &mut Partners, t: &mut Partners, i: usize, j: usize) -> bool
    ensures { joined result p.new t.new ≡ join_to p.old t.old i j }
{
    if limit::LINES <= i {
        return false;
    }
    if limit::LINES <= j {
        return false;
    }
    if wide_number(p[i]) == j + 1 {
        return true;
    }
    if p[i] != 0 {
        return false;
    }
    if t[j] != 0 {
        return false;
    }
    p[i] = (j + 1) as u32;
    t[j] = (i + 1) as u32;
    true
}

// Joins line i with the line of the second card's mark k where the mark has the key and the lines have one property.
fn join_at(
    x: &Side,
    i: usize,
    key: u32,
    tag: u32,
    y: &Side,
    m: &Marks,
    k: usize,
    p: &mut Partners,
    t: &mut Partners,
) -> bool
    requires k_in_bounds { k < length m.now.keys.now }
    requires sifts { Sifts x.now.copy.now x.now.records.now i key tag y.now.copy.now y.now.records.now m.now.numbers.now m.now.keys.now m.now.tags.now m.now.seats.now }
    ensures { joined result p.new t.new ≡ join_all (joined true p.old t.old) (key_pair x.now.copy.now x.now.records.now i key y.now.copy.now y.now.records.now m.now.numbers.now m.now.keys.now k) }
{
    let partner = partner_of(p, i);
    if !is_new(m.tags[k], m.seats[k], tag, partner) {
        return true;
    }
    if m.keys[k] != key {
        return true;
    }
    let j = wide_number(number_of(m.numbers, k, LINE));
    if !merge_sides::same_property(x.copy, x.records, i, y.copy, y.records, j) {
        return true;
    }
    join(p, t, i, j)
}

// Joins line i with each line of the second card that has its property and a mark of the key.
fn join_hits(
    x: &Side,
    i: usize,
    key: u32,
    tag: u32,
    y: &Side,
    m: &Marks,
    p: &mut Partners,
    t: &mut Partners,
) -> bool
    requires { Sifts x.now.copy.now x.now.records.now i key tag y.now.copy.now y.now.records.now m.now.numbers.now m.now.keys.now m.now.tags.now m.now.seats.now }
    ensures { joined result p.new t.new ≡ join_all (joined true p.old t.old) (hit_pairs x.now.copy.now x.now.records.now i key y.now.copy.now y.now.records.now m.now.numbers.now m.now.keys.now 0 (length m.now.keys.now)) }
{
    for k in 0..m.keys.len() {
        if !join_at(x, i, key, tag, y, m, k, p, t) {
            return false;
        }
    }
    true
}

// The same, where a mark of the tag has a line that is not the partner already.
fn join_mark(
    x: &Side,
    i: usize,
    key: u32,
    tag: u32,
    y: &Side,
    m: &Marks,
    p: &mut Partners,
    t: &mut Partners,
) -> bool
    requires { Sifts x.now.copy.now x.now.records.now i key tag y.now.copy.now y.now.records.now m.now.numbers.now m.now.keys.now m.now.tags.now m.now.seats.now }
    ensures { joined result p.new t.new ≡ join_all (joined true p.old t.old) (mark_pairs x.now.copy.now x.now.records.now i key y.now.copy.now y.now.records.now m.now.numbers.now m.now.keys.now) }
{
    if key == NO_KEY {
        return true;
    }
    let partner = partner_of(p, i);
    if count_new(m.tags, m.seats, tag, partner) == 0 {
        return true;
    }
    join_hits(x, i, key, tag, y, m, p, t)
}

// Joins all lines that share a global value.
fn join_marks(
    x: &Side,
    digests: &[usize],
    firsts: &[u32],
    n: usize,
    own: Row,
    classes: &Classes,
    y: &Side,
    m: &Marks,
    p: &mut Partners,
    t: &mut Partners,
) -> bool
    requires digests { Digests x.now.copy.now x.now.records.now digests.now }
    requires tagged { Tagged x.now.copy.now x.now.records.now (length digests.now) y.now.copy.now y.now.records.now m.now.numbers.now m.now.keys.now m.now.tags.now m.now.seats.now }
    ensures { joined result p.new t.new ≡ join_all (joined true p.old t.old) (shared_pairs x.now.copy.now x.now.records.now firsts.now own classes.now y.now.copy.now y.now.records.now m.now.numbers.now m.now.keys.now 0 n) }
{
    let mut last = None;
    for k in 0..n {
        let i = wide_number(number_of(firsts, k, LINE));
        let key = key_at(firsts, k, own, classes);
        let headed = look(x, digests, x, i, last);
        let tag = tag_of(headed.head, key);
        last = Some(headed);
        if !join_mark(x, i, key, tag, y, m, p, t) {
            return false;
        }
    }
    true
}

// Joins the lines of a property that a card has at most once, where each card has one.
fn join_row(
    rows: &PropertyTable,
    row: usize,
    x: &Side,
    y: &Side,
    p: &mut Partners,
    t: &mut Partners,
) -> bool
    requires lists { Lists rows.now }
    requires row_lt_all { row < property.all }
    ensures { joined result p.new t.new ≡ join_all (joined true p.old t.old) (row_pairs row x.now.records.now x.now.lines y.now.records.now y.now.lines) }
{
    if property_table::once_of(rows, row) == 0 {
        return true;
    }
    if merge_sides::count_lines(x.records, x.lines, row) != 1 {
        return true;
    }
    if merge_sides::count_lines(y.records, y.lines, row) != 1 {
        return true;
    }
    let i = merge_sides::find_line(x.records, x.lines, row);
    let j = merge_sides::find_line(y.records, y.lines, row);
    join(p, t, i, j)
}

// The same for every such property.
fn join_singles(x: &Side, y: &Side, p: &mut Partners, t: &mut Partners) -> bool
    ensures { joined result p.new t.new ≡ join_all (joined true p.old t.old) (single_pairs x.now.records.now x.now.lines y.now.records.now y.now.lines 0 property.count) }
{
    let rows = property_table::table();
    for row in 0..property::COUNT {
        if !join_row(&rows, row, x, y, p, t) {
            return false;
        }
    }
    true
}

// How many lines of the first card are looked through: none where a card has no marks.
fn count_looked(na: usize, ka: usize, kb: usize) -> usize
    ensures { result ≤ limit.lines }
{
    if ka == 0 {
        return 0;
    }
    if kb == 0 {
        return 0;
    }
    octets::slices::least(na, limit::LINES)
}

// Joins all demanded pairs; false where a line is in two of them.
pub fn join_all<'a>(
    x: &Side<'a>,
    firsts: &[u32],
    ka: usize,
    a: Row,
    y: &Side<'a>,
    seconds: &[u32],
    kb: usize,
    b: Row,
    p: &mut Partners,
) -> bool
    ensures { joined_first result p.new ≡ first_of (join_all (joined true p.old (replicate limit.lines 0)) (demanded_pairs x.now.copy.now x.now.records.now x.now.lines firsts.now ka a y.now.copy.now y.now.records.now y.now.lines seconds.now kb b)) }
{
    let mut t = [0u32; limit::LINES];
    let mut keys = [0u32; limit::LINES];
    let in_a = classes_of(x.copy, a, x.copy, a);
    let in_b = classes_of(x.copy, a, y.copy, b);
    put_keys(seconds, kb, b, &in_b, &mut keys);
    let n = octets::slices::least(kb, limit::LINES);
    let looked = count_looked(x.lines, ka, kb);
    let mut digests = [0usize; limit::LINES];
    put_digests(x, looked, &mut digests);
    let mut tags = [0u32; limit::LINES];
    put_tags(x, &digests[..looked], y, seconds, &keys[..n], &mut tags);
    let mut seats = [0u32; limit::LINES];
    put_seats(seconds, n, &mut seats);
    let m = Marks {
        numbers: seconds,
        keys: &keys[..n],
        tags: &tags[..n],
        seats: &seats[..n],
    };
    if !join_marks(
        x,
        &digests[..looked],
        firsts,
        ka,
        a,
        &in_a,
        y,
        &m,
        p,
        &mut t,
    ) {
        return false;
    }
    join_singles(x, y, p, &mut t)
}

// How many lines have a partner.
pub fn count_pairs(p: &Partners) -> usize
    ensures value { result ≡ length (pairs_from p.now 0 limit.lines) }
    ensures upper_bound { result ≤ limit.lines }
{
    p.iter().filter(|partner| **partner != 0).count()
}

// Whether both cards have a UID line, and the first ones have the same value.
pub fn same_uids(x: &Side, y: &Side) -> bool
    ensures { result ≡ same_uids x.now.copy.now x.now.records.now x.now.lines y.now.copy.now y.now.records.now y.now.lines }
{
    let i = merge_sides::find_line(x.records, x.lines, property::UID);
    let j = merge_sides::find_line(y.records, y.lines, property::UID);
    if x.lines <= i {
        return false;
    }
    if y.lines <= j {
        return false;
    }
    merge_sides::same_octets(
        merge_sides::value_of(x.copy, x.records, i),
        merge_sides::value_of(y.copy, y.records, j),
    )
}
