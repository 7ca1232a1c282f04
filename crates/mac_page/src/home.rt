//! Whether a request is asked of the site by its own page.

ghost use Rattle.std.specs.Prelude.{◌≡◌, Some};
ghost use Rattle.std.specs.Option.{option_map};
ghost use Rattle.http.specs.Request.{head_of};
ghost use Rattle.mac_http.specs.Authorization.{only};
ghost use Rattle.mac_page.specs.Home.{brings_secret, has_own_names, is_at_home, is_fetched, is_from_home};
ghost use Rattle.mac_page.specs.Home.{is_named, is_own, is_own_origin, is_opened, is_shown};

use crate::site::Site;
use bytes::Bytes;
use http::Request;
use http::header::{GetAll, HOST, HeaderValue, ORIGIN};

/// What stands before the name of a site in an origin.
const SCHEME: &[u8] = b"http://";

/// The field that brings the secret of the page.
const SECRET: &str = "macaroond-page";

/// The field by which a browser tells whose page asks.
const FETCH_SITE: &str = "sec-fetch-site";

const SAME_ORIGIN: &[u8] = b"same-origin";

/// What a browser tells where a person asks, and no page.
const NO_PAGE: &[u8] = b"none";

/// Whether the request names the site and brings its secret, and no field of it names another page.
pub(crate) fn is_at_home(site: &Site, request: &Request<Bytes>) -> bool
    ensures { result ≡ is_at_home site.now (head_of request.now) }
{
    has_own_names(site, request)
        && is_fetched(&request.headers().get_all(FETCH_SITE))
        && brings_secret(site, only_value(&request.headers().get_all(SECRET)))
}

/// Whether the request names the site, and no field of it names another page that asks for a file.
pub(crate) fn is_shown(site: &Site, request: &Request<Bytes>) -> bool
    ensures { result ≡ is_shown site.now (head_of request.now) }
{
    has_own_names(site, request) && is_opened(&request.headers().get_all(FETCH_SITE))
}

/// Whether the request names the site, and a page that it names is the site's.
fn has_own_names(site: &Site, request: &Request<Bytes>) -> bool
    ensures { result ≡ has_own_names site.now (head_of request.now) }
{
    is_named(site, only_value(&request.headers().get_all(HOST)))
        && is_from_home(site, &request.headers().get_all(ORIGIN))
}

/// Whether the field's one value is the secret of the page.
fn brings_secret(site: &Site, value: Option<&[u8]>) -> bool
    ensures { result ≡ brings_secret site.now (option_map (λ v. v.now) value.entry) }
{
    match value {
        Some(value) => site.secrets.of_page.is_told_by(value),
        None => false,
    }
}

/// Whether no browser tells whose page asks, or one does, and it is the site's.
fn is_fetched(sites: &GetAll<'_, HeaderValue>) -> bool
    ensures { result ≡ is_fetched sites.now }
{
    let mut left = sites.iter();
    let Some(told) = left.next() else {
        return true;
    };
    left.next().is_none() && told.as_bytes() == SAME_ORIGIN
}

/// The same of a file, for which a person may ask too.
fn is_opened(sites: &GetAll<'_, HeaderValue>) -> bool
    ensures { result ≡ is_opened sites.now }
{
    let mut left = sites.iter();
    let Some(told) = left.next() else {
        return true;
    };
    left.next().is_none() && (told.as_bytes() == SAME_ORIGIN || told.as_bytes() == NO_PAGE)
}

/// The one value of a field.
fn only_value<'a>(values: &GetAll<'a, HeaderValue>) -> Option<&'a [u8]>
    ensures { option_map (λ v. v.now) result ≡ option_map (λ v. v.bytes) (only values.now) }
{
    let mut left = values.iter();
    let value = left.next()?;
    if left.next().is_some() {
        return None;
    }
    Some(value.as_bytes())
}

/// Whether there is a name, and the site is served under it.
fn is_named(site: &Site, name: Option<&[u8]>) -> bool
    ensures { result ≡ is_named site.now (option_map (λ n. n.now) name.entry) }
{
    match name {
        Some(name) => is_own(site, name),
        None => false,
    }
}

/// Whether the site is served under the name.
fn is_own(site: &Site, name: &[u8]) -> bool
    ensures { result ≡ is_own site.now name.now }
{
    name == site.address.as_str().as_bytes() || name == site.local.as_str().as_bytes()
}

/// Whether no page is named that asks, or one alone, and it is the site's.
fn is_from_home(site: &Site, origins: &GetAll<'_, HeaderValue>) -> bool
    ensures { result ≡ is_from_home site.now origins.now }
{
    let mut left = origins.iter();
    let Some(origin) = left.next() else {
        return true;
    };
    if left.next().is_some() {
        return false;
    }
    is_own_origin(site, origin.as_bytes())
}

/// Whether the page that asks is the site's.
fn is_own_origin(site: &Site, origin: &[u8]) -> bool
    ensures { result ≡ is_own_origin site.now origin.now }
{
    match origin.strip_prefix(SCHEME) {
        Some(name) => is_own(site, name),
        None => false,
    }
}
