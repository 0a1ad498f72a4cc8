//! A script, its replies, and the drawing of both, which a program in another language made.

/// A script with two windows, and a text that is no shape.
pub(crate) const SCRIPT: &str = concat!(
    "# Two offices, and a window.\n",
    "n: HELLO north\n",
    "n: ADD 1 mast POINT (4 4)\n",
    "n: COMMIT\n",
    "\n",
    "s: HELLO south\n",
    "s: SEARCH POLYGON ((0 0, 9 0, 9 9, 0 9, 0 0))\n",
    "s: OPEN LINESTRING (5 0, 5 9)\n",
    "s: SEARCH POINT (3)\n",
);

/// The replies to it.
pub(crate) const REPLIES: &str = concat!(
    "n: hello north\n",
    "n: staged\n",
    "n: applied 1\n",
    "s: hello south\n",
    "s: rows 3\n",
    "s: 1 1 north mast POINT (4 4)\n",
    "s: 2 1 north road LINESTRING (-1 3, 6 2)\n",
    "s: 3 1 south parcel POLYGON ((0 0, 4 0, 4 4, 0 4, 0 0))\n",
    "s: opened\n",
    "s: error K3\n",
);

/// The drawing of both.
pub(crate) const DRAWN: &str = concat!(
    "<svg xmlns=\"http://www.w3.org/2000/svg\" version=\"1.1\" width=\"1420\" height=\"10",
    "00\" viewBox=\"0 0 1420 1000\">\n",
    "<rect width=\"1420\" height=\"1000\" fill=\"#ffffff\"/>\n",
    "<svg x=\"40\" y=\"40\" width=\"920\" height=\"920\" overflow=\"visible\" viewBox=\"-",
    "2 -10 12 11\">\n",
    "<rect x=\"-2\" y=\"-10\" width=\"12\" height=\"11\" fill=\"none\" stroke=\"#7f7f7f\"",
    " stroke-width=\"0.1%\"/>\n",
    "<g transform=\"scale(1 -1)\" fill-opacity=\"0.4\" stroke-width=\"0.3%\">\n",
    "<g fill=\"#2ca02c\" stroke=\"#2ca02c\"><title>3 parcel south</title><polygon points=",
    "\"0,0 4,0 4,4 0,4 \"/></g>\n",
    "<g fill=\"#ff7f0e\" stroke=\"#ff7f0e\"><title>2 road north</title><line x1=\"-1\" y1",
    "=\"3\" x2=\"6\" y2=\"2\"/></g>\n",
    "<g fill=\"#1f77b4\" stroke=\"#1f77b4\"><title>1 mast north</title><circle r=\"0.6%\"",
    " cx=\"4\" cy=\"4\"/></g>\n",
    "<g fill=\"none\" stroke=\"#000000\" stroke-dasharray=\"1% 1%\"><polygon points=\"0,0",
    " 9,0 9,9 0,9 \"/></g>\n",
    "<g fill=\"none\" stroke=\"#000000\" stroke-dasharray=\"1% 1%\"><line x1=\"5\" y1=\"0",
    "\" x2=\"5\" y2=\"9\"/></g>\n",
    "</g>\n",
    "</svg>\n",
    "<g font-family=\"monospace\" font-size=\"20\" text-anchor=\"middle\">\n",
    "<text transform=\"translate(30 500) rotate(-90)\">x=-2</text>\n",
    "<text transform=\"translate(984 500) rotate(-90)\">x=10</text>\n",
    "<text transform=\"translate(500 945)\">y=-1</text>\n",
    "<text transform=\"translate(500 68)\">y=10</text>\n",
    "</g>\n",
    "<text font-family=\"monospace\" font-size=\"20\" x=\"1020\" y=\"40\">\n",
    "<tspan x=\"1020\" dy=\"28\" fill=\"#1f77b4\">mast</tspan>\n",
    "<tspan x=\"1020\" dy=\"28\" fill=\"#ff7f0e\">road</tspan>\n",
    "<tspan x=\"1020\" dy=\"28\" fill=\"#2ca02c\">parcel</tspan>\n",
    "</text>\n",
    "</svg>\n",
);

/// The drawing of nothing.
pub(crate) const EMPTY: &str = concat!(
    "<svg xmlns=\"http://www.w3.org/2000/svg\" version=\"1.1\" width=\"1420\" height=\"10",
    "00\" viewBox=\"0 0 1420 1000\">\n",
    "<rect width=\"1420\" height=\"1000\" fill=\"#ffffff\"/>\n",
    "<svg x=\"40\" y=\"40\" width=\"920\" height=\"920\" overflow=\"visible\" viewBox=\"-",
    "10000001 -10000001 20000002 20000002\">\n",
    "<rect x=\"-10000001\" y=\"-10000001\" width=\"20000002\" height=\"20000002\" fill=\"",
    "none\" stroke=\"#7f7f7f\" stroke-width=\"0.1%\"/>\n",
    "<g transform=\"scale(1 -1)\" fill-opacity=\"0.4\" stroke-width=\"0.3%\">\n",
    "</g>\n",
    "</svg>\n",
    "<g font-family=\"monospace\" font-size=\"20\" text-anchor=\"middle\">\n",
    "<text transform=\"translate(30 500) rotate(-90)\">x=-10000001</text>\n",
    "<text transform=\"translate(984 500) rotate(-90)\">x=10000001</text>\n",
    "<text transform=\"translate(500 984)\">y=-10000001</text>\n",
    "<text transform=\"translate(500 30)\">y=10000001</text>\n",
    "</g>\n",
    "<text font-family=\"monospace\" font-size=\"20\" x=\"1020\" y=\"40\">\n",
    "</text>\n",
    "</svg>\n",
);
