//! Requests of HTTP to change, one behind the other, from their bytes to those of their responses.
use crate::http_tests::{Door, look};
use features::Name;
use std::hash::RandomState;
use std::test::Fail;

/// Requests on one connection, over a world with four features of version 1.
const SENT: [&str; 23] = [
    "POST /collections/features/items HTTP/1.1\r\nHost: m\r\nContent-Type: application/geo+json\r\nContent-Length: 105\r\n\r\n{\"type\":\"Feature\",\"id\":20,\"geometry\":{\"type\":\"Point\",\"coordinates\":[7,46]},\"properties\":{\"class\":\"mast\"}}",
    "POST /collections/mast/items HTTP/1.1\r\nHost: m\r\nContent-Type: application/geo+json\r\nContent-Length: 75\r\n\r\n{\"type\":\"Feature\",\"id\":21,\"geometry\":{\"type\":\"Point\",\"coordinates\":[7,46]}}",
    "POST /collections/features/items HTTP/1.1\r\nHost: m\r\nContent-Type: application/geo+json\r\nContent-Length: 105\r\n\r\n{\"type\":\"Feature\",\"id\":20,\"geometry\":{\"type\":\"Point\",\"coordinates\":[7,46]},\"properties\":{\"class\":\"mast\"}}",
    "POST /collections/features/items HTTP/1.1\r\nHost: m\r\nContent-Type: application/geo+json\r\nContent-Length: 97\r\n\r\n{\"type\":\"Feature\",\"geometry\":{\"type\":\"Point\",\"coordinates\":[7,46]},\"properties\":{\"class\":\"mast\"}}",
    "POST /collections/features/items HTTP/1.1\r\nHost: m\r\nContent-Type: application/geo+json\r\nContent-Length: 75\r\n\r\n{\"type\":\"Feature\",\"id\":22,\"geometry\":{\"type\":\"Point\",\"coordinates\":[7,46]}}",
    "POST /collections/features/items HTTP/1.1\r\nHost: m\r\nContent-Type: application/geo+json\r\nContent-Length: 114\r\n\r\n{\"type\":\"Feature\",\"id\":22,\"geometry\":{\"type\":\"Point\",\"coordinates\":[7,46.00000001]},\"properties\":{\"class\":\"mast\"}}",
    "POST /collections/features/items HTTP/1.1\r\nHost: m\r\nContent-Type: application/geo+json\r\nContent-Length: 8\r\n\r\n{\"type\":",
    "POST /collections/features/items HTTP/1.1\r\nHost: m\r\nContent-Type: text/plain\r\nContent-Length: 105\r\n\r\n{\"type\":\"Feature\",\"id\":22,\"geometry\":{\"type\":\"Point\",\"coordinates\":[7,46]},\"properties\":{\"class\":\"mast\"}}",
    "POST /collections/features/items HTTP/1.1\r\nHost: m\r\nContent-Type: application/geo+json\r\nOrigin: http://other\r\nContent-Length: 105\r\n\r\n{\"type\":\"Feature\",\"id\":22,\"geometry\":{\"type\":\"Point\",\"coordinates\":[7,46]},\"properties\":{\"class\":\"mast\"}}",
    "POST /collections/features/items HTTP/1.1\r\nHost: m\r\nContent-Type: application/geo+json\r\nOrigin: http://M\r\nContent-Length: 105\r\n\r\n{\"type\":\"Feature\",\"id\":22,\"geometry\":{\"type\":\"Point\",\"coordinates\":[7,46]},\"properties\":{\"class\":\"mast\"}}",
    "PUT /collections/features/items/20 HTTP/1.1\r\nHost: m\r\nContent-Type: application/geo+json\r\nContent-Length: 113\r\n\r\n{\"type\":\"Feature\",\"id\":20,\"geometry\":{\"type\":\"Point\",\"coordinates\":[7.0000001,46]},\"properties\":{\"class\":\"mast\"}}",
    "PUT /collections/features/items/20 HTTP/1.1\r\nHost: m\r\nContent-Type: application/geo+json\r\nIf-Match: \"2\"\r\nContent-Length: 113\r\n\r\n{\"type\":\"Feature\",\"id\":20,\"geometry\":{\"type\":\"Point\",\"coordinates\":[7.0000001,46]},\"properties\":{\"class\":\"mast\"}}",
    "PATCH /collections/features/items/20 HTTP/1.1\r\nHost: m\r\nContent-Type: application/merge-patch+json\r\nIf-Match: \"2\"\r\nContent-Length: 75\r\n\r\n{\"type\":\"Feature\",\"geometry\":{\"type\":\"Point\",\"coordinates\":[7.0000002,46]}}",
    "PUT /collections/features/items/20 HTTP/1.1\r\nHost: m\r\nContent-Type: application/geo+json\r\nIf-Match: \"5\"\r\nContent-Length: 105\r\n\r\n{\"type\":\"Feature\",\"id\":21,\"geometry\":{\"type\":\"Point\",\"coordinates\":[7,46]},\"properties\":{\"class\":\"mast\"}}",
    "DELETE /collections/mast/items/20 HTTP/1.1\r\nHost: m\r\nIf-Match: \"5\"\r\n\r\n",
    "DELETE /collections/features/items/20 HTTP/1.1\r\nHost: m\r\nIf-Match: W/\"5\"\r\n\r\n",
    "DELETE /collections/features/items/20 HTTP/1.1\r\nHost: m\r\nIf-Match: \"5\"\r\n\r\n",
    "DELETE /collections/features/items/20 HTTP/1.1\r\nHost: m\r\nIf-Match: \"5\"\r\n\r\n",
    "POST /collections/features/items/20 HTTP/1.1\r\nHost: m\r\nContent-Type: application/geo+json\r\nContent-Length: 1\r\n\r\nx",
    "DELETE /collections/features/items HTTP/1.1\r\nHost: m\r\n\r\n",
    "TRACE /collections/features/items HTTP/1.1\r\nHost: m\r\n\r\n",
    "POST /collections/features/items?limit=1 HTTP/1.1\r\nHost: m\r\nContent-Type: application/geo+json\r\nContent-Length: 105\r\n\r\n{\"type\":\"Feature\",\"id\":23,\"geometry\":{\"type\":\"Point\",\"coordinates\":[7,46]},\"properties\":{\"class\":\"mast\"}}",
    "DELETE /nowhere HTTP/1.1\r\nHost: m\r\n\r\n",
];

/// What stands in the responses, in this order.
const RECEIVED: [&str; 42] = [
    "HTTP/1.1 201 Created\r\netag: \"2\"\r\nlocation: http://m/collections/features/items/20\r\n",
    "HTTP/1.1 201 Created\r\netag: \"3\"\r\nlocation: http://m/collections/mast/items/21\r\n",
    "HTTP/1.1 409 Conflict\r\n",
    "\"code\":\"exists\"}",
    "HTTP/1.1 422 ",
    "\"code\":\"id\",\"place\":\"/id\"}",
    "HTTP/1.1 422 ",
    "\"code\":\"class\",\"place\":\"/properties/class\"}",
    "HTTP/1.1 400 Bad Request\r\n",
    "\"code\":\"M2\",\"place\":\"/geometry/coordinates/1\"}",
    "HTTP/1.1 400 Bad Request\r\n",
    "\"code\":\"J1\",\"place\":\"\"}",
    "HTTP/1.1 415 Unsupported Media Type\r\n",
    "\"code\":\"media\"}",
    "HTTP/1.1 403 Forbidden\r\n",
    "\"code\":\"origin\"}",
    "HTTP/1.1 201 Created\r\netag: \"4\"\r\n",
    "HTTP/1.1 428 Precondition Required\r\n",
    "\"code\":\"version\"}",
    "HTTP/1.1 204 No Content\r\netag: \"5\"\r\n",
    "HTTP/1.1 412 Precondition Failed\r\n",
    "etag: \"5\"\r\n",
    "\"code\":\"stale\",\"current\":5}",
    "HTTP/1.1 422 ",
    "\"code\":\"id\"",
    "HTTP/1.1 405 Method Not Allowed\r\n",
    "allow: GET, HEAD\r\n",
    "HTTP/1.1 412 Precondition Failed\r\n",
    "\"code\":\"stale\"}",
    "HTTP/1.1 204 No Content\r\nx-content-type-options: nosniff\r\n",
    "HTTP/1.1 404 Not Found\r\n",
    "\"code\":\"absent\"}",
    "HTTP/1.1 405 Method Not Allowed\r\n",
    "allow: GET, HEAD, PUT, PATCH, DELETE\r\n",
    "HTTP/1.1 405 Method Not Allowed\r\n",
    "allow: GET, HEAD, POST\r\n",
    "HTTP/1.1 405 Method Not Allowed\r\n",
    "allow: GET, HEAD, POST\r\n",
    "HTTP/1.1 400 Bad Request\r\n",
    "\"code\":\"U2\"}",
    "HTTP/1.1 404 Not Found\r\n",
    "\"code\":\"U1\"}",
];

#[test]
fn changes_on_one_connection(rt: HostRuntime) -> Result<(), Fail> {
    let state = RandomState::new(&rt)?;
    let door = Door {
        anonymous: Name::new(b"north"),
        keys: &[],
        trusted_field: false,
    };
    look(&rt, rt.alloc(), state, b"http://m", &door, &SENT, &RECEIVED)
}

/// Nobody changes anything where nobody is named for those who do not say who they are, and nobody
/// does by a wrong secret.
#[test]
fn changes_of_nobody(rt: HostRuntime) -> Result<(), Fail> {
    let state = RandomState::new(&rt)?;
    let door = Door {
        anonymous: None,
        keys: &[],
        trusted_field: false,
    };
    let refused = [
        "HTTP/1.1 403 Forbidden\r\n",
        "\"code\":\"H1\"}",
        "HTTP/1.1 422 ",
    ];
    look(
        &rt,
        rt.alloc(),
        state,
        b"http://m",
        &door,
        &[SENT[0], SENT[3]],
        &refused,
    )
}
