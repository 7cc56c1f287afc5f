// The library for C, c/mutree.h: an export for each call of crate camera, under its name, with its clauses.
#![tactic(auto)]

ghost use Rattle.std.specs.Prelude.{◌≡◌};
ghost use Rattle.model.specs.Calls.{format_of, lookup_of, patrol_of};
ghost use Rattle.model.specs.Listing.{list_of, as_outcome};
ghost use Rattle.live_words.specs.Live.{insert_live_of, delete_live_of};
ghost use Rattle.text_carrying.specs.Carrying.{export_of, import_of};
ghost use Rattle.camera.specs.Camera.{returned, words_left, open_bytes, open_record, lookup_bytes, list_bytes, insert_bytes, delete_bytes, kept};

#[unsafe(no_mangle)]
pub extern "C" fn mutree_format(kind: u32, image: &mut [u8], res: &mut [u8]) -> u32
    ensures answer { result ≡ (returned (format_of kind image.old) image.old res.old).answer }
    ensures image { image.new ≡ (returned (format_of kind image.old) image.old res.old).image }
    ensures res { res.new ≡ (returned (format_of kind image.old) image.old res.old).result }
{
    camera::mutree_format(kind, &mut *image, &mut *res)
}

#[unsafe(no_mangle)]
pub extern "C" fn mutree_lookup(kind: u32, image: &[u8], key: u32, res: &mut [u8]) -> u32
    ensures answer { result ≡ (returned (lookup_of kind image.now key) image.now res.old).answer }
    ensures res { res.new ≡ (returned (lookup_of kind image.now key) image.now res.old).result }
{
    camera::mutree_lookup(kind, image, key, &mut *res)
}

#[unsafe(no_mangle)]
pub extern "C" fn mutree_list(
    kind: u32,
    image: &[u8],
    low: u32,
    high: u32,
    pairs: &mut [u32],
    res: &mut [u8],
) -> u32
    ensures answer { result ≡ (returned (as_outcome (list_of kind image.now low high pairs.old)) pairs.old
        res.old).answer }
    ensures pairs { pairs.new ≡ (returned (as_outcome (list_of kind image.now low high pairs.old)) pairs.old
        res.old).image }
    ensures res { res.new ≡ (returned (as_outcome (list_of kind image.now low high pairs.old)) pairs.old
        res.old).result }
{
    camera::mutree_list(kind, image, low, high, &mut *pairs, &mut *res)
}

#[unsafe(no_mangle)]
pub extern "C" fn mutree_insert(
    kind: u32,
    image: &mut [u8],
    live: &mut [u32],
    key: u32,
    address: u32,
    allowance: u32,
    res: &mut [u8],
) -> u32
    ensures answer { result ≡ (returned (insert_live_of kind image.old live.old key address
        allowance).outcome image.old res.old).answer }
    ensures image { image.new ≡ (returned (insert_live_of kind image.old live.old key address
        allowance).outcome image.old res.old).image }
    ensures live { live.new ≡ words_left (insert_live_of kind image.old live.old key address allowance)
        live.old res.old }
    ensures res { res.new ≡ (returned (insert_live_of kind image.old live.old key address allowance).outcome
        image.old res.old).result }
{
    camera::mutree_insert(
        kind,
        &mut *image,
        &mut *live,
        key,
        address,
        allowance,
        &mut *res,
    )
}

#[unsafe(no_mangle)]
pub extern "C" fn mutree_delete(
    kind: u32,
    image: &mut [u8],
    live: &mut [u32],
    key: u32,
    allowance: u32,
    res: &mut [u8],
) -> u32
    ensures answer { result ≡ (returned (delete_live_of kind image.old live.old key allowance).outcome
        image.old res.old).answer }
    ensures image { image.new ≡ (returned (delete_live_of kind image.old live.old key allowance).outcome
        image.old res.old).image }
    ensures live { live.new ≡ words_left (delete_live_of kind image.old live.old key allowance) live.old
        res.old }
    ensures res { res.new ≡ (returned (delete_live_of kind image.old live.old key allowance).outcome
        image.old res.old).result }
{
    camera::mutree_delete(kind, &mut *image, &mut *live, key, allowance, &mut *res)
}

#[unsafe(no_mangle)]
pub extern "C" fn mutree_patrol(
    kind: u32,
    image: &mut [u8],
    page: u32,
    half: u32,
    res: &mut [u8],
) -> u32
    ensures answer { result ≡ (returned (patrol_of kind image.old page half) image.old res.old).answer }
    ensures image { image.new ≡ (returned (patrol_of kind image.old page half) image.old res.old).image }
    ensures res { res.new ≡ (returned (patrol_of kind image.old page half) image.old res.old).result }
{
    camera::mutree_patrol(kind, &mut *image, page, half, &mut *res)
}

#[unsafe(no_mangle)]
pub extern "C" fn mutree_export(kind: u32, image: &[u8], text: &mut [u8], res: &mut [u8]) -> u32
    ensures answer { result ≡ (returned (export_of kind image.now text.old) text.old res.old).answer }
    ensures text { text.new ≡ (returned (export_of kind image.now text.old) text.old res.old).image }
    ensures res { res.new ≡ (returned (export_of kind image.now text.old) text.old res.old).result }
{
    camera::mutree_export(kind, image, &mut *text, &mut *res)
}

#[unsafe(no_mangle)]
pub extern "C" fn mutree_import(kind: u32, image: &mut [u8], text: &[u8], res: &mut [u8]) -> u32
    ensures answer { result ≡ (returned (import_of kind image.old text.now) image.old res.old).answer }
    ensures image { image.new ≡ (returned (import_of kind image.old text.now) image.old res.old).image }
    ensures res { res.new ≡ (returned (import_of kind image.old text.now) image.old res.old).result }
{
    camera::mutree_import(kind, &mut *image, text, &mut *res)
}

#[unsafe(no_mangle)]
pub extern "C" fn mutree_open(kind: u32, image: &[u8], bytes: &mut [u8], res: &mut [u8]) -> u32
    ensures answer { result ≡ (returned (open_bytes kind image.now bytes.old) image.now res.old).answer }
    ensures bytes { bytes.new ≡ kept res.old bytes.old (open_record kind image.now bytes.old) }
    ensures res { res.new ≡ (returned (open_bytes kind image.now bytes.old) image.now res.old).result }
{
    camera::mutree_open(kind, image, &mut *bytes, &mut *res)
}

#[unsafe(no_mangle)]
pub extern "C" fn mutree_lookup_opened(
    kind: u32,
    image: &[u8],
    bytes: &[u8],
    key: u32,
    res: &mut [u8],
) -> u32
    ensures answer { result ≡ (returned (lookup_bytes kind image.now bytes.now key) image.now
        res.old).answer }
    ensures res { res.new ≡ (returned (lookup_bytes kind image.now bytes.now key) image.now res.old).result }
{
    camera::mutree_lookup_opened(kind, image, bytes, key, &mut *res)
}

#[unsafe(no_mangle)]
pub extern "C" fn mutree_list_opened(
    kind: u32,
    image: &[u8],
    bytes: &[u8],
    low: u32,
    high: u32,
    pairs: &mut [u32],
    res: &mut [u8],
) -> u32
    ensures answer { result ≡ (returned (list_bytes kind image.now bytes.now low high pairs.old) pairs.old
        res.old).answer }
    ensures pairs { pairs.new ≡ (returned (list_bytes kind image.now bytes.now low high pairs.old) pairs.old
        res.old).image }
    ensures res { res.new ≡ (returned (list_bytes kind image.now bytes.now low high pairs.old) pairs.old
        res.old).result }
{
    camera::mutree_list_opened(kind, image, bytes, low, high, &mut *pairs, &mut *res)
}

#[unsafe(no_mangle)]
pub extern "C" fn mutree_insert_opened(
    kind: u32,
    image: &mut [u8],
    bytes: &mut [u8],
    live: &mut [u32],
    key: u32,
    address: u32,
    allowance: u32,
    res: &mut [u8],
) -> u32
    ensures answer { result ≡ (returned (insert_bytes kind image.old live.old bytes.old key address
        allowance).outcome image.old res.old).answer }
    ensures image { image.new ≡ (returned (insert_bytes kind image.old live.old bytes.old key address
        allowance).outcome image.old res.old).image }
    ensures bytes { bytes.new ≡ kept res.old bytes.old (insert_bytes kind image.old live.old bytes.old key
        address allowance).bytes }
    ensures live { live.new ≡ kept res.old live.old (insert_bytes kind image.old live.old bytes.old key
        address allowance).words }
    ensures res { res.new ≡ (returned (insert_bytes kind image.old live.old bytes.old key address
        allowance).outcome image.old res.old).result }
{
    camera::mutree_insert_opened(
        kind,
        &mut *image,
        &mut *bytes,
        &mut *live,
        key,
        address,
        allowance,
        &mut *res,
    )
}

#[unsafe(no_mangle)]
pub extern "C" fn mutree_delete_opened(
    kind: u32,
    image: &mut [u8],
    bytes: &mut [u8],
    live: &mut [u32],
    key: u32,
    allowance: u32,
    res: &mut [u8],
) -> u32
    ensures answer { result ≡ (returned (delete_bytes kind image.old live.old bytes.old key
        allowance).outcome image.old res.old).answer }
    ensures image { image.new ≡ (returned (delete_bytes kind image.old live.old bytes.old key
        allowance).outcome image.old res.old).image }
    ensures bytes { bytes.new ≡ kept res.old bytes.old (delete_bytes kind image.old live.old bytes.old key
        allowance).bytes }
    ensures live { live.new ≡ kept res.old live.old (delete_bytes kind image.old live.old bytes.old key
        allowance).words }
    ensures res { res.new ≡ (returned (delete_bytes kind image.old live.old bytes.old key allowance).outcome
        image.old res.old).result }
{
    camera::mutree_delete_opened(
        kind,
        &mut *image,
        &mut *bytes,
        &mut *live,
        key,
        allowance,
        &mut *res,
    )
}
